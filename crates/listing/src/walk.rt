// The order of a root's nodes in its listing. In work the cell of a node is its number and 1, or 0 before it has one.
ghost use Rattle.std.specs.Prelude.{◌≡◌, ◌+◌};
ghost use Rattle.cells.specs.Part.{cell};
ghost use Rattle.listing.specs.Walks.{order_at, number_of, Visits, Walks};

use cells::{add, at, get, place, put, set};
use lang_ty::arc_ty;
use layout::WalkSlice;

// The nodes below x and x itself, numbered from k on, children first; the next number. A child has a smaller number than its node.
fn visit(arena: &[u32], work: &mut [u32], x: u32, k: u32) -> u32
    ensures { Visits arena.now work.old x k work.new result }
{
    if at(work, x) != 0 {
        return k;
    }
    let n = arc_ty::children(arena, x);
    let mut next = k;
    for i in 0..n {
        let c = arc_ty::child(arena, x, i);
        if c < x {
            next = visit(arena, work, c, next);
        }
    }
    put(work, place(WalkSlice::ORDER, next), x);
    next = add(next, 1);
    set(work, x, next);
    next
}

// How many nodes are reached from x.
pub fn walk(arena: &[u32], work: &mut [u32], x: u32) -> u32
    ensures { Walks arena.now work.old x work.new result }
{
    cells::clear(work, 0, add(x, 1));
    visit(arena, work, x, 0)
}

// Node k of the listing.
pub fn node(work: &[u32], k: u32) -> u32
    ensures { result ≡ cell work.now (order_at + k) }
{
    get(work, place(WalkSlice::ORDER, k))
}

// The number of node x in the listing.
pub fn number(work: &[u32], x: u32) -> u32
    ensures { result ≡ number_of work.now x }
{
    at(work, x).saturating_sub(1)
}
