// What a pass notes and counts: polarity bits, keys, operations, the bail, and the lists that a chain of fallbacks began.
ghost use Rattle.std.specs.Prelude.{true};
ghost use Rattle.rules.specs.Canonicalizer.{tick};
ghost use Rattle.storage.specs.Notes.{AddsBit, IsBoth, Slot, Notes, PassWith, Exceeds, NoneBegun, Began, Begins};

use crate::equiv::rep;
use crate::given::Canon;
use cells::{add, get, place, put};
use lang_ty::arena::Pass;
use layout::WorkSlice;
use rules::Polarity;

// PolarityBits: bit 0 positive, bit 1 negative.
#[derive(Clone, Copy)]
pub struct PolarityBits {
    pub bits: u32,
}

impl PolarityBits {
    // Tests, no `|`: any number without the bit by the rules' test keeps its value, as 4 does, which `| 2` would change.
    pub fn add(self, pol: Polarity) -> PolarityBits
        ensures { AddsBit self pol result }
    {
        let b = self.bits;
        match pol {
            Polarity::Positive => {
                if b % 2 == 0 {
                    PolarityBits { bits: b + 1 }
                } else {
                    self
                }
            }
            Polarity::Negative => {
                if b < 2 {
                    PolarityBits { bits: b + 2 }
                } else {
                    self
                }
            }
        }
    }

    pub fn is_both(self) -> bool
        ensures { IsBoth self result }
    {
        self.bits == 3
    }
}

// The place of id's key of a polarity.
pub fn slot(id: u32, pol: Polarity) -> u32
    ensures { Slot id pol result }
{
    let two = add(id, id);
    match pol {
        Polarity::Positive => two,
        Polarity::Negative => add(two, 1),
    }
}

// The polarity of a variable noted, at its representative.
pub fn note(table: &[u32], c: Canon, work: &mut [u32], id: u32, pol: Polarity)
    ensures { Notes table.now c work.old id pol work.new }
{
    let p = place(WorkSlice::BITS, rep(table, c.count, id));
    let old = PolarityBits { bits: get(work, p) };
    let new = old.add(pol);
    put(work, p, new.bits);
}

pub fn count_one(q: &mut Pass)
    ensures { PassWith q.old (tick q.old.ops) q.old.bailed q.new }
{
    if q.ops < Canon::OPERATIONS {
        q.ops += 1;
    }
}

// The pass's count is a multiple of 512, and the operations of both passes so far exceed the budget.
pub fn exceeds(c: Canon, q: &Pass) -> bool
    ensures { Exceeds c q.now result }
{
    q.ops % Canon::INTERVAL == 0 && u64::from(c.budget) < u64::from(c.spent) + u64::from(q.ops)
}

pub fn bail(q: &mut Pass)
    ensures { PassWith q.old q.old.ops true q.new }
{
    q.bailed = true;
}

// Which lists of a chain fallbacks began after the bail.
#[derive(Clone, Copy)]
pub struct Begun {
    pub lower: bool,
    pub upper: bool,
}

pub fn none_begun() -> Begun
    ensures { NoneBegun result }
{
    Begun {
        lower: false,
        upper: false,
    }
}

pub fn began(g: Begun, pol: Polarity) -> bool
    ensures { Began g pol result }
{
    match pol {
        Polarity::Positive => g.upper,
        Polarity::Negative => g.lower,
    }
}

pub fn begin(g: Begun, pol: Polarity, bailed: bool) -> Begun
    ensures { Begins g pol bailed result }
{
    if !bailed {
        return g;
    }
    match pol {
        Polarity::Positive => Begun { upper: true, ..g },
        Polarity::Negative => Begun { lower: true, ..g },
    }
}
