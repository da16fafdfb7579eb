// Lists of ids held in the working slice: the bounds by which a variable is expanded, the children of an entry.
ghost use Rattle.storage.specs.Helds.{HoldsIf, HoldsBounds, Forgets, HoldsFirst, FirstOfEach, Deduplicates, BeginsList, OwnList, own_of, OwnBounds, SetChild};
ghost use Rattle.storage.specs.Helds.{HoldsFields, HoldsOne, HoldsTwo, HoldsChildren, FirstPolarity};

use crate::entries;
use crate::entries::Entry;
use crate::equiv::rep;
use crate::given::Canon;
use crate::vars::is_preserved;
use cells::{add, at, get, place, put, set};
use lang_ty::attrset;
use layout::{TableSlice, WorkSlice};
use rules::Polarity;

// The bounds held with which a variable's own rule begins: how many, and whether the variable stays beside them.
#[derive(Clone, Copy)]
pub struct Bounds {
    pub count: u32,
    pub kept: bool,
}

// b put after the k cells held from h on, if it is to be kept; how many there are then.
fn hold_if(work: &mut [u32], h: u32, k: u32, b: u32, kept: bool) -> u32
    ensures { HoldsIf work.old h k b kept work.new result }
{
    if !kept {
        return k;
    }
    put(work, place(h, k), b);
    add(k, 1)
}

// The bounds of the list at l that are wanted, held from h on; how many there are.
fn hold_bounds<F: Fn(u32) -> bool>(
    table: &[u32],
    work: &mut [u32],
    h: u32,
    l: u32,
    wanted: F,
) -> u32
    requires { F.IsAlwaysCallable wanted }
    ensures { HoldsBounds (λ b x. F.post wanted b x) table.now work.old h l work.new result }
{
    let n = at(table, l);
    let mut k = 0;
    for i in 0..n {
        let b = get(table, place(add(l, 1), i));
        k = hold_if(work, h, k, b, wanted(b));
    }
    k
}

// The marks of the n ids held from h on taken away.
fn forget(work: &mut [u32], h: u32, n: u32)
    ensures { Forgets work.old h n work.new }
{
    for i in 0..n {
        let b = get(work, place(h, i));
        put(work, place(WorkSlice::SEEN, b), 0);
    }
}

// b put after the k cells held from h on, if it was not seen before; it is marked as seen.
fn hold_first(work: &mut [u32], h: u32, k: u32, b: u32) -> u32
    ensures { HoldsFirst work.old h k b work.new result }
{
    let p = place(WorkSlice::SEEN, b);
    let seen = get(work, p) != 0;
    put(work, p, 1);
    hold_if(work, h, k, b, !seen)
}

// The first of each id among the n held from h on; how many there are.
fn first_of_each(work: &mut [u32], h: u32, n: u32) -> u32
    ensures { FirstOfEach work.old h n work.new result }
{
    let mut k = 0;
    for i in 0..n {
        k = hold_first(work, h, k, get(work, place(h, i)));
    }
    k
}

// Bounds are deduplicated by id only beyond 16.
pub fn deduplicated(work: &mut [u32], h: u32, n: u32) -> u32
    ensures { Deduplicates work.old h n work.new result }
{
    if n <= 16 {
        return n;
    }
    let k = first_of_each(work, h, n);
    forget(work, h, k);
    k
}

// The list that a fallback begins, held from h on: in a negative place the lowers, unless the variable or its representative is marked; in
// a positive place the atoms among the uppers.
pub fn begin_list(table: &[u32], c: Canon, work: &mut [u32], h: u32, id: u32, pol: Polarity) -> u32
    ensures { BeginsList table.now c work.old h id pol work.new result }
{
    let v = add(entries::row(table, c, id), 1);
    match pol {
        Polarity::Positive => {
            let u = entries::uppers(table, v);
            hold_bounds(table, work, h, u, |b| entries::is_atom(table, c, b))
        }
        Polarity::Negative => {
            if get(table, place(TableSlice::MARKS, id)) != 0
                || get(table, place(TableSlice::MARKS, rep(table, c.count, id))) != 0
            {
                return 0;
            }
            hold_bounds(table, work, h, v, |_| true)
        }
    }
}

// The list of the bounds in that place of the variable with lists at v.
fn own_list(table: &[u32], v: u32, pol: Polarity) -> u32
    ensures { OwnList table.now v pol result }
{
    match pol {
        Polarity::Positive => v,
        Polarity::Negative => entries::uppers(table, v),
    }
}

// The bounds by which the variable id with lists at v is expanded, held from h on: those that are no variables, or without any those of
// other classes; none where it is the variable itself.
pub fn own_bounds(
    table: &[u32],
    c: Canon,
    work: &mut [u32],
    h: u32,
    id: u32,
    v: u32,
    pol: Polarity,
) -> Option<Bounds>
    ensures { OwnBounds table.now c work.old h id v pol work.new (own_of result) }
{
    let l = own_list(table, v, pol);
    let kept = is_preserved(table, c, id);
    let n = hold_bounds(table, work, h, l, |b| !entries::is_variable(table, c, b));
    if n != 0 {
        return Some(Bounds { count: n, kept });
    }
    if kept {
        return None;
    }
    let r = rep(table, c.count, id);
    let count = hold_bounds(table, work, h, l, |b| rep(table, c.count, b) != r);
    Some(Bounds { count, kept: false })
}

// The id that stands i-th among the fields and the dyn of the set at a, which has n fields.
fn set_child(table: &[u32], a: u32, n: u32, i: u32) -> u32
    ensures { SetChild table.now a n i result }
{
    if i < n {
        attrset::field_type(table, a, i)
    } else {
        attrset::dyn_type(table, a)
    }
}

// The ids of the fields and the dyn of the set at a, held from h on; how many there are.
fn hold_fields(table: &[u32], a: u32, work: &mut [u32], h: u32) -> u32
    ensures { HoldsFields table.now a work.old h work.new result }
{
    let f = attrset::fields(table, a);
    let n = add(f, attrset::dyns(table, a));
    for i in 0..n {
        put(work, place(h, i), set_child(table, a, f, i));
    }
    n
}

fn hold_one(work: &mut [u32], h: u32, a: u32) -> u32
    ensures { HoldsOne work.old h a work.new result }
{
    set(work, h, a);
    1
}

pub fn hold_two(work: &mut [u32], h: u32, a: u32, b: u32) -> u32
    ensures { HoldsTwo work.old h a b work.new result }
{
    set(work, h, a);
    put(work, place(h, 1), b);
    2
}

// The children of an entry that is neither a variable nor an intersection, held from h on; how many there are.
pub fn hold_children(table: &[u32], work: &mut [u32], h: u32, e: Entry) -> u32
    ensures { HoldsChildren table.now work.old h e work.new result }
{
    match e {
        Entry::List(a) | Entry::Neg(a) | Entry::Named(_, a) => hold_one(work, h, a),
        Entry::Lambda(a, b) | Entry::Union(a, b) => hold_two(work, h, a, b),
        Entry::AttrSet(a) => hold_fields(table, a, work, h),
        _ => 0,
    }
}

// The polarity of an entry's first child: a parameter's and a negated one's is the other one.
pub fn first_polarity(e: Entry, pol: Polarity) -> Polarity
    ensures { FirstPolarity e pol result }
{
    match e {
        Entry::Lambda(..) | Entry::Neg(_) => pol.flip(),
        _ => pol,
    }
}
