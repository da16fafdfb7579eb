// A table that was read, prepared for its runs: what its passes are given, and the facts that they look up in its slice.
#![tactic(auto)]

ghost use Rattle.prepare.specs.Prepares.{Number, FirstEntry, FirstPair, FirstMark, FirstRoot, SetsMark, SetsMarks, IsFunctor, Functor, Budget, Prepares};

use cells::{add, at, get, place, put};
use layout::TableSlice;
use storage::equiv;
use storage::given::Canon;
use table::Table;

// A table ready to run: what its passes are given, the place where the first root's beginning stands, and how many roots there are.
#[derive(Clone, Copy)]
pub struct Prepared {
    pub canon: Canon,
    pub first: u32,
    pub roots: u32,
}

// A count as a number of a row; the greatest where it does not fit.
pub fn number(n: usize) -> u32
    ensures { Number n result }
{
    u32::try_from(n).unwrap_or(u32::MAX)
}

// The places where the beginnings of the first entry, the first pair, the first mark and the first root stand.
fn first_entry(t: Table) -> u32
    ensures { FirstEntry t result }
{
    add(TableSlice::ROWS + 1, number(t.names))
}

pub fn first_pair(t: Table) -> u32
    ensures { FirstPair t result }
{
    add(first_entry(t), number(t.entries))
}

pub fn first_mark(t: Table) -> u32
    ensures { FirstMark t result }
{
    add(first_pair(t), number(t.pairs))
}

pub fn first_root(t: Table) -> u32
    ensures { FirstRoot t result }
{
    add(first_mark(t), number(t.marks))
}

// A one at the place of a marked id.
fn set_mark(table: &mut [u32], entries: u32, id: u32)
    ensures { SetsMark table.old entries id table.new }
{
    if id < entries {
        put(table, place(TableSlice::MARKS, id), 1);
    }
}

fn set_marks(table: &mut [u32], t: Table)
    ensures { SetsMarks table.old t table.new }
{
    let first = first_mark(t);
    let entries = number(t.entries);
    let n = number(t.marks);
    for i in 0..n {
        let row = get(table, place(first, i));
        let id = get(table, place(row, 1));
        set_mark(table, entries, id);
    }
}

// Whether the name in the row from a up to e is `__functor`.
fn is_functor(table: &[u32], a: u32, e: u32) -> bool
    ensures { IsFunctor table.now a e result }
{
    let name = [95u32, 95, 102, 117, 110, 99, 116, 111, 114];
    let from = add(a, 1);
    e == add(a, 10) && (0..9).all(|i| get(table, place(from, i)) == at(&name, i))
}

// The number of the name `__functor`; the number of names where it is none of them.
fn functor(table: &[u32], names: u32) -> u32
    ensures { Functor table.now names result }
{
    for i in 0..names {
        let a = get(table, place(TableSlice::ROWS + 1, i));
        let e = get(table, place(TableSlice::ROWS + 2, i));
        if is_functor(table, a, e) {
            return i;
        }
    }
    names
}

// The budget: the second word of row 0, which has two in each table that was read.
pub fn budget(table: &[u32]) -> u32
    ensures { Budget table.now result }
{
    let a = at(table, TableSlice::ROWS);
    if at(table, TableSlice::ROWS + 1) <= add(a, 1) {
        return 0;
    }
    get(table, place(a, 1))
}

// What a first pass over the table is given; representatives and marks are put into its slice.
pub fn prepare(table: &mut [u32], t: Table) -> Prepared
    ensures { Prepares table.old t table.new result }
{
    let n = number(t.entries);
    equiv::from_storage(table, n, first_pair(t), number(t.pairs));
    set_marks(table, t);
    let canon = Canon {
        count: n,
        base: first_entry(t),
        budget: budget(table),
        spent: 0,
        functor: functor(table, number(t.names)),
    };
    Prepared {
        canon,
        first: first_root(t),
        roots: number(t.roots),
    }
}
