// What the programs recheck and recheck_numbered show.
ghost use Rattle.recheck_call.specs.Program.{AnswersRecheck, AnswersParts};

use crate::recheck_in;
use layout::{ArenaSlice, DraftSlice, TableSlice, WorkSlice};
use programs::{behind, shown, until_next};
use rules::Form;

// The answer to an old table, a new one and an old listing, alike.
fn answer_recheck(form: Form, old: &[u8], new: &[u8], listing: &[u8], out: &mut [u8]) -> u32
    ensures { AnswersRecheck form old.now new.now listing.now out.old out.new result }
{
    let mut draft = [0u8; DraftSlice::LENGTH];
    let mut old_table = [0u32; TableSlice::LENGTH];
    let mut table = [0u32; TableSlice::LENGTH];
    let mut arena = [0u32; ArenaSlice::LINE];
    let mut work = [0u32; WorkSlice::LENGTH];
    let r = recheck_in(
        form,
        old,
        new,
        listing,
        out,
        &mut draft,
        &mut old_table,
        &mut table,
        &mut arena,
        &mut work,
    );
    shown(r, out)
}

// The answer to recheck's input: old table, a line `next`, new table, `next`, old listing. "A part left out for want of `next` is empty".
pub fn answer_parts(form: Form, input: &[u8], out: &mut [u8]) -> u32
    ensures { AnswersParts form input.now out.old out.new result }
{
    let old = until_next(input, 0);
    let old_end = old.to;
    let new = until_next(input, behind(input, old_end));
    let new_start = new.from;
    let new_end = new.to;
    let rest = behind(input, new_end);
    answer_recheck(
        form,
        &input[..old_end],
        &input[new_start..new_end],
        &input[rest..],
        out,
    )
}
