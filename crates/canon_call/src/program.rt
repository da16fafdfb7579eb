// What the programs canon and canon_numbered show.
ghost use Rattle.canon_call.specs.Program.{AnswersCanon};

use crate::canon_in;
use layout::{ArenaSlice, DraftSlice, TableSlice, WorkSlice};
use programs::shown;
use rules::Form;

// The answer to a table in this form, with all scratch lent in full; the bytes to be shown stand in out.
pub fn answer_canon(form: Form, text: &[u8], out: &mut [u8]) -> u32
    ensures { AnswersCanon form text.now out.old out.new result }
{
    let mut draft = [0u8; DraftSlice::LENGTH];
    let mut table = [0u32; TableSlice::LENGTH];
    let mut arena = [0u32; ArenaSlice::LENGTH];
    let mut work = [0u32; WorkSlice::LENGTH];
    let r = canon_in(
        form, text, out, &mut draft, &mut table, &mut arena, &mut work,
    );
    shown(r, out)
}
