// Ids and names in range: refusal 3.
ghost use Rattle.table.specs.Rows.{Placed, Few, VarKnown, SetKnown, KeysKnown, NamedKnown, EntryKnown, EntriesKnown, RootsKnown, Known};

use crate::Table;
use crate::kinds::{Kind, kind_of};
use crate::rows::{Places, at, begin, below, places_of};
use rules::{Fault, Refusal};

// Whether the ids of a variable's bounds are below n.
fn var_known(words: &[u32], from: usize, to: usize, n: usize) -> bool
    ensures { VarKnown words.now from to n result }
{
    let a = at(words, from, to, 1) as usize;
    if !below(words, from, to, 2, 1, a, n) {
        return false;
    }
    let b = at(words, from, to, 2 + a) as usize;
    below(words, from, to, 3 + a, 1, b, n)
}

// Whether the children of a set are below n.
pub fn set_known(words: &[u32], from: usize, to: usize, p: Places, n: usize) -> bool
    requires { Placed words.now from to p }
    ensures { SetKnown words.now from to n result }
{
    below(words, from, to, 3, 2, p.fields, n) && below(words, from, to, p.dynamic + 1, 1, p.held, n)
}

// Whether the keys of a set, and its optional keys, are below names.
pub fn keys_known(words: &[u32], from: usize, to: usize, p: Places, names: usize) -> bool
    requires { Placed words.now from to p }
    ensures { KeysKnown words.now from to names result }
{
    below(words, from, to, 2, 2, p.fields, names)
        && below(words, from, to, p.opens + 2, 1, p.optional, names)
}

// Whether a Named's id is below n and its name below names.
fn named_known(words: &[u32], from: usize, to: usize, n: usize, names: usize) -> bool
    ensures { NamedKnown words.now from to n names result }
{
    below(words, from, to, 2, 1, 1, n) && below(words, from, to, 1, 1, 1, names)
}

// Whether the ids and names of the entry whose row stands between from and to are in range.
fn entry_known(words: &[u32], from: usize, to: usize, n: usize, names: usize) -> bool
    ensures { EntryKnown words.now from to n names result }
{
    match kind_of(at(words, from, to, 0)) {
        Kind::Var => var_known(words, from, to, n),
        Kind::Set => {
            let p = places_of(words, from, to);
            set_known(words, from, to, p, n) && keys_known(words, from, to, p, names)
        }
        Kind::Named => named_known(words, from, to, n, names),
        Kind::List | Kind::Neg => below(words, from, to, 1, 1, 1, n),
        Kind::Fn | Kind::Inter | Kind::Union => below(words, from, to, 1, 1, 2, n),
        Kind::Frozen | Kind::Other => true,
    }
}

// Refusal 3 at the first entry that is not in range.
fn entries_known(table: &[u32], t: Table) -> Result<(), Fault>
    requires { Few t }
    ensures { EntriesKnown table.now t result }
{
    for i in 0..t.entries {
        let a = begin(table, 1 + t.names + i) as usize;
        let e = begin(table, 2 + t.names + i) as usize;
        if !entry_known(table, a, e, t.entries, t.names) {
            return Err(Fault {
                refusal: Refusal::Range,
                line: (2 + t.names + i) as u32,
            });
        }
    }
    Ok(())
}

// Refusal 3 at the first root whose id is not below the entry count.
fn roots_known(table: &[u32], t: Table) -> Result<(), Fault>
    requires { Few t }
    ensures { RootsKnown table.now t result }
{
    let first = 1 + t.names + t.entries + t.pairs + t.marks;
    for i in 0..t.roots {
        let a = begin(table, first + i) as usize;
        let e = begin(table, first + i + 1) as usize;
        if !below(table, a, e, 1, 1, 1, t.entries) {
            return Err(Fault {
                refusal: Refusal::Range,
                line: (first + i + 1) as u32,
            });
        }
    }
    Ok(())
}

// Refusal 3 at the first row that is not in range: entries in order, then roots.
pub fn known_of(table: &[u32], t: Table) -> Result<(), Fault>
    requires { Few t }
    ensures { Known table.now t result }
{
    entries_known(table, t)?;
    roots_known(table, t)
}
