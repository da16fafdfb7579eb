// TypeStorage, read: entry id is row base + id of the table's rows.
ghost use Rattle.storage.specs.Entries.{Row, KindAt, IsVar, EntryOfTwo, EntryRead, IsAtom, Uppers, FindsNamed, NamedBound, Turned};

use crate::given::Canon;
use cells::{add, at, get, place};
use rules::Polarity;

// TypeEntry and Ty. A variable's and a set's lists stand in the row, from the place given on.
#[derive(Clone, Copy)]
pub enum Entry {
    Variable(u32),
    Primitive(u32),
    TyVar(u32),
    List(u32),
    Lambda(u32, u32),
    AttrSet(u32),
    Neg(u32),
    Named(u32, u32),
    Inter(u32, u32),
    Union(u32, u32),
    Frozen,
}

// The numbers that a table's rows begin with, of the kinds that are asked for alone: `entry_at` makes the enum of all of them, and reads more.
#[derive(Clone, Copy)]
pub struct EntryKind {}

impl EntryKind {
    pub const VARIABLE: u32 = 2;

    pub const PRIMITIVE: u32 = 3;

    pub const NEG: u32 = 8;

    pub const NAMED: u32 = 9;
}

// The place of entry id's row.
pub fn row(table: &[u32], c: Canon, id: u32) -> u32
    ensures { Row table.now c id result }
{
    get(table, place(c.base, id))
}

pub fn entry_kind(table: &[u32], c: Canon, id: u32) -> u32
    ensures { KindAt table.now c id result }
{
    at(table, row(table, c, id))
}

pub fn is_variable(table: &[u32], c: Canon, id: u32) -> bool
    ensures { IsVar table.now c id result }
{
    entry_kind(table, c, id) == EntryKind::VARIABLE
}

// An entry of two ids, or of one number and an id.
fn entry_of_two(kind: u32, x: u32, y: u32) -> Entry
    ensures { EntryOfTwo kind x y result }
{
    match kind {
        6 => Entry::Lambda(x, y),
        9 => Entry::Named(x, y),
        10 => Entry::Inter(x, y),
        11 => Entry::Union(x, y),
        _ => Entry::Frozen,
    }
}

// TypeStorage::get
pub fn entry_at(table: &[u32], c: Canon, id: u32) -> Entry
    ensures { EntryRead table.now c id result }
{
    let a = row(table, c, id);
    let kind = at(table, a);
    let x = get(table, place(a, 1));
    match kind {
        2 => Entry::Variable(add(a, 1)),
        3 => Entry::Primitive(x),
        4 => Entry::TyVar(x),
        5 => Entry::List(x),
        7 => Entry::AttrSet(add(a, 1)),
        8 => Entry::Neg(x),
        _ => entry_of_two(kind, x, get(table, place(a, 2))),
    }
}

// A primitive, or the neg of a primitive entry.
pub fn is_atom(table: &[u32], c: Canon, id: u32) -> bool
    ensures { IsAtom table.now c id result }
{
    let a = row(table, c, id);
    let kind = at(table, a);
    if kind == EntryKind::NEG {
        return entry_kind(table, c, get(table, place(a, 1))) == EntryKind::PRIMITIVE;
    }
    kind == EntryKind::PRIMITIVE
}

// The lower bounds of the variable at v: their number stands there, and they after it. The upper bounds stand after them alike.
pub fn uppers(table: &[u32], v: u32) -> u32
    ensures { Uppers table.now v result }
{
    add(add(v, 1), at(table, v))
}

// The first bound of the list at l that is a Named, if there is one.
fn find_named(table: &[u32], c: Canon, l: u32) -> Option<u32>
    ensures { FindsNamed table.now c l result }
{
    let n = at(table, l);
    for i in 0..n {
        let b = get(table, place(add(l, 1), i));
        if entry_kind(table, c, b) == EntryKind::NAMED {
            return Some(b);
        }
    }
    None
}

// A Named bound of the variable at v, lowers searched first.
pub fn named_bound(table: &[u32], c: Canon, v: u32) -> Option<u32>
    ensures { NamedBound table.now c v result }
{
    find_named(table, c, v).or_else(|| find_named(table, c, uppers(table, v)))
}

// A variable is tried again in the other polarity.
pub fn turned(table: &[u32], c: Canon, id: u32, pol: Polarity) -> Polarity
    ensures { Turned table.now c id pol result }
{
    if is_variable(table, c, id) {
        pol.flip()
    } else {
        pol
    }
}
