// What a call comes to, the test of what is lent to it, a text brought from the draft to the output, and the scratch wiped.
#![tactic(auto)]

ghost use Rattle.outcomes.specs.Outcomes.{Short, Fits, Copies, Wiped};

use layout::{DraftSlice, TableSlice, WorkSlice};

// Whether a lent length is shorter than the one stated for it; least is what is stated for the arena.
pub fn is_short(draft: usize, table: usize, arena: usize, least: usize, work: usize) -> bool
    ensures { Short draft table arena least work result }
{
    draft < DraftSlice::LENGTH
        || table < TableSlice::LENGTH
        || arena < least
        || work < WorkSlice::LENGTH
}

// The first n bytes of the draft copied to the output. Not by `copy_from_slice`, which asks the host of the archive for `memmove`.
pub fn copy(out: &mut [u8], draft: &[u8], n: usize)
    requires { Fits out.old draft.now n }
    ensures { Copies out.old draft.now n out.new }
{
    for i in 0..n {
        out[i] = draft[i];
    }
}

// Zero in every cell of the scratch that each call is lent.
pub fn wipe_all(draft: &mut [u8], table: &mut [u32], arena: &mut [u32], work: &mut [u32])
    ensures { Wiped draft.old table.old arena.old work.old draft.new table.new
        arena.new work.new }
{
    draft.fill(0);
    table.fill(0);
    arena.fill(0);
    work.fill(0);
}
