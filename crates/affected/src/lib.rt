// Which roots an edit affects: those with a chain of bounds or children to an entry that differs. The chains are followed backwards from all
// differing entries at once, so that each entry and each id in it is looked at once for all roots.
#![tactic(auto)]

ghost use Rattle.std.specs.Prelude.{◌≡◌, [], ◌∷◌};
ghost use Rattle.cells.specs.Part.{cell};
ghost use Rattle.affected.specs.Reaches.{Marks, MarksIf, MarksDiffering, MarksBefore, Spreads, MarksReaching, FlagsRoots, FlagsRedone};

use cells::{add, clear, get, place, put};
use compare::same_row;
use layout::{LinkSlice, SpanSlice};
use links::link_all;
use storage::given::Canon;

// Entry x marked, and put after the q entries of the queue, unless it was marked before; how many the queue has then.
fn mark(work: &mut [u32], q: u32, x: u32) -> u32
    ensures { Marks work.old q (x ∷ []) work.new result }
{
    if get(work, place(LinkSlice::MARKS, x)) != 0 {
        return q;
    }
    put(work, place(LinkSlice::MARKS, x), 1);
    put(work, place(LinkSlice::QUEUE, q), x);
    add(q, 1)
}

// The entries marked so far: the slice that holds them in the order in which they were marked, and how many there are.
#[derive(Drop)]
struct Queue<'a> {
    work: &'a mut [u32],
    len: u32,
}

impl<'a> Queue<'a> {
    fn cell(&self, at: usize) -> u32
        ensures { result ≡ cell self.now.work.now at }
    {
        get(self.work, at)
    }

    fn add(&mut self, x: u32)
        ensures same { self.new.work.ghost_name ≡ self.old.work.ghost_name }
        ensures made { Marks self.old.work.now self.old.len (x ∷ []) self.new.work.now self.new.len }
    {
        self.len = mark(self.work, self.len, x);
    }

    // Entry x marked if its rows differ.
    fn add_if_differs(&mut self, old: &[u32], table: &[u32], c: Canon, x: u32)
        ensures same { self.new.work.ghost_name ≡ self.old.work.ghost_name }
        ensures made { MarksIf old.now table.now self.old.work.now c self.old.len x self.new.work.now self.new.len }
    {
        if !same_row(old, table, add(c.base, x)) {
            self.add(x);
        }
    }

    // Begun anew: each entry marked whose rows differ.
    fn add_differing(&mut self, old: &[u32], table: &[u32], c: Canon)
        ensures same { self.new.work.ghost_name ≡ self.old.work.ghost_name }
        ensures made { MarksDiffering old.now table.now self.old.work.now c self.new.work.now self.new.len }
    {
        self.len = 0;
        for x in 0..c.count {
            self.add_if_differs(old, table, c, x);
        }
    }

    // Each entry marked that has a link to x; there are n links in all.
    fn add_before(&mut self, n: u32, x: u32)
        ensures same { self.new.work.ghost_name ≡ self.old.work.ghost_name }
        ensures made { MarksBefore self.old.work.now n self.old.len x self.new.work.now self.new.len }
    {
        let mut e = self.cell(place(LinkSlice::HEAD, x));
        for i in 0..n {
            if e == 0 {
                return;
            }
            let from = self.cell(place(LinkSlice::FROM, e));
            self.add(from);
            e = self.cell(place(LinkSlice::NEXT, e));
        }
    }

    // Each entry marked from which a chain of links goes to one in the queue. An entry is queued once, so count turns empty the queue.
    fn spread(&mut self, n: u32, count: u32)
        ensures same { self.new.work.ghost_name ≡ self.old.work.ghost_name }
        ensures made { Spreads self.old.work.now n count self.old.len self.new.work.now }
    {
        for i in 0..count {
            if self.len <= i {
                return;
            }
            let x = self.cell(place(LinkSlice::QUEUE, i));
            self.add_before(n, x);
        }
    }
}

// Each entry marked that has a chain, of no steps or more, to an entry that differs. Up to the first of those the old and the new rows are
// the same, so the chains of the old table do for both.
fn mark_reaching(old: &[u32], table: &[u32], work: &mut [u32], c: Canon)
    ensures { MarksReaching old.now table.now work.old c work.new }
{
    clear(work, LinkSlice::HEAD, c.count);
    let n = link_all(old, work, c);
    clear(work, LinkSlice::MARKS, c.count);
    let mut queue = Queue { work, len: 0 };
    queue.add_differing(old, table, c);
    queue.spread(n, c.count);
}

// The mark of each root's entry, put into the spans. Where the roots' rows begin is told from first on.
fn flag_roots(table: &[u32], work: &[u32], spans: &mut [u32], first: u32, roots: u32)
    ensures { FlagsRoots table.now work.now spans.old first roots spans.new }
{
    for i in 0..roots {
        let row = get(table, place(first, i));
        let id = get(table, place(row, 1));
        put(
            spans,
            place(SpanSlice::REDONE, i),
            get(work, place(LinkSlice::MARKS, id)),
        );
    }
}

// For each root whether it is redone: whether a chain of bounds or children from it meets an entry that differs. Both tables have the
// entries that c counts, and where their roots' rows begin is told from first on. The flags go into the old table's spans.
pub fn flag_redone(
    old: &mut [u32],
    table: &[u32],
    work: &mut [u32],
    c: Canon,
    first: u32,
    roots: u32,
)
    ensures { FlagsRedone old.old table.now work.old c first roots old.new }
{
    mark_reaching(old, table, work, c);
    flag_roots(table, work, old, first, roots);
}
