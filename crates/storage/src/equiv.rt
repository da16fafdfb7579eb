// EquivDsu: the representatives of ids that pairs join. The lent slice holds each id's parent from place 0 on, at the end its representative;
// the pairs lie after the parents.
ghost use Rattle.storage.specs.Equivs.{Rep, Finds, Unites, Alone, UnitesAll, Settles, Represents};

use cells::{at, get, place, set};

// EquivDsu::find: the end of id's chain of parents, each second step of it halved. A chain has at most as many steps as there are ids.
fn find(parent: &mut [u32], count: u32, id: u32) -> u32
    ensures { Finds parent.old count id parent.new result }
{
    let mut cur = id;
    for i in 0..count {
        let p = at(parent, cur);
        if p == cur {
            return cur;
        }
        let above = at(parent, p);
        set(parent, cur, above);
        cur = above;
    }
    cur
}

// EquivDsu::union: the merged class has b's representative; an id past the entries does nothing.
fn union(parent: &mut [u32], count: u32, a: u32, b: u32)
    ensures { Unites parent.old count a b parent.new }
{
    if count <= a || count <= b {
        return;
    }
    let ra = find(parent, count, a);
    let rb = find(parent, count, b);
    set(parent, ra, rb);
}

fn alone(parent: &mut [u32], count: u32)
    ensures { Alone parent.old count parent.new }
{
    for i in 0..count {
        set(parent, i, i);
    }
}

// The pairs are the rows that begin where the places from first on tell.
fn union_pairs(table: &mut [u32], count: u32, first: u32, pairs: u32)
    ensures { UnitesAll table.old count first pairs table.new }
{
    for i in 0..pairs {
        let p = get(table, place(first, i));
        let a = get(table, place(p, 1));
        let b = get(table, place(p, 2));
        union(table, count, a, b);
    }
}

fn settle(parent: &mut [u32], count: u32)
    ensures { Settles parent.old count parent.new }
{
    for i in 0..count {
        let r = find(parent, count, i);
        set(parent, i, r);
    }
}

// EquivDsu::from_storage: each id's representative, pairs in order.
pub fn from_storage(table: &mut [u32], count: u32, first: u32, pairs: u32)
    ensures { Represents table.old count first pairs table.new }
{
    alone(table, count);
    union_pairs(table, count, first, pairs);
    settle(table, count);
}

// A number of count or more is its own representative.
pub fn rep(reps: &[u32], count: u32, id: u32) -> u32
    ensures { Rep reps.now count id result }
{
    if id < count { at(reps, id) } else { id }
}
