// canon, canon_numbered and canon_root. A call tests what is lent to it, refuses a short scratch with 20 before all else, and leaves every scratch zero.
#![tactic(auto)]

pub mod program;

ghost use Rattle.rules.specs.declared.Form.TheVariants.{Plain, Numbered};
ghost use Rattle.outcomes.specs.Outcomes.{outcome_of};
ghost use Rattle.canon_call.specs.Called.{IsNoEntry, Answers, Calls, Canon, CanonRoot};

use answers::asked::{Asked, deliver};
use cells::clear;
use layout::{ArenaSlice, TableSlice};
use prepare::prepare;
use rules::{Fault, Form, Refusal};
use table::Table;

// Whether the id that is asked for is no entry of the table.
fn is_no_entry(t: Table, asked: Asked) -> bool
    ensures { IsNoEntry t asked result }
{
    match asked {
        Asked::All(_) => false,
        Asked::Root(id, _) => t.entries <= id as usize,
        Asked::Mixed(_) => false,
    }
}

// A call before the scratch is wiped: 20, the table's refusal, 3 and line 0 for a root that it does not have, and what is asked of it. Its
// facts are zero before the first run. There is no old table.
fn answer(
    text: &[u8],
    asked: Asked,
    out: &mut [u8],
    draft: &mut [u8],
    table: &mut [u32],
    arena: &mut [u32],
    work: &mut [u32],
) -> Result<u32, Fault>
    ensures { Answers text.now asked out.old draft.old table.old arena.old
        work.old out.new (outcome_of result) }
{
    if outcomes::is_short(
        draft.len(),
        table.len(),
        arena.len(),
        ArenaSlice::LENGTH,
        work.len(),
    ) {
        return Err(Fault {
            refusal: Refusal::Scratch,
            line: 0,
        });
    }
    clear(table, 0, TableSlice::ROWS);
    let t = table::read(text, table)?;
    if is_no_entry(t, asked) {
        return Err(Fault {
            refusal: Refusal::Range,
            line: 0,
        });
    }
    let g = prepare(table, t);
    deliver(text, out, draft, &[0u32; 1], table, g, arena, work, asked)
}

// What is asked of a table text, or the refusal; the scratch is wiped after it.
fn call(
    text: &[u8],
    asked: Asked,
    out: &mut [u8],
    draft: &mut [u8],
    table: &mut [u32],
    arena: &mut [u32],
    work: &mut [u32],
) -> Result<u32, Fault>
    ensures { Calls text.now asked out.old draft.old table.old arena.old
        work.old out.new draft.new table.new arena.new work.new (outcome_of result) }
{
    let r = answer(text, asked, out, draft, table, arena, work);
    outcomes::wipe_all(draft, table, arena, work);
    r
}

// The whole listing of a table in this form, or the refusal.
pub fn canon_in(
    form: Form,
    text: &[u8],
    out: &mut [u8],
    draft: &mut [u8],
    table: &mut [u32],
    arena: &mut [u32],
    work: &mut [u32],
) -> Result<u32, Fault>
    ensures { Canon form text.now out.old draft.old table.old arena.old work.old
        out.new draft.new table.new arena.new work.new (outcome_of result) }
{
    call(text, Asked::All(form), out, draft, table, arena, work)
}

// The whole listing of a table, or the refusal.
pub fn canon(
    text: &[u8],
    out: &mut [u8],
    draft: &mut [u8],
    table: &mut [u32],
    arena: &mut [u32],
    work: &mut [u32],
) -> Result<u32, Fault>
    ensures { Canon Plain text.now out.old draft.old table.old arena.old work.old
        out.new draft.new table.new arena.new work.new (outcome_of result) }
{
    canon_in(Form::Plain, text, out, draft, table, arena, work)
}

// The same with the variables of each root numbered from 0 on; TypeArena::normalize_vars.
pub fn canon_numbered(
    text: &[u8],
    out: &mut [u8],
    draft: &mut [u8],
    table: &mut [u32],
    arena: &mut [u32],
    work: &mut [u32],
) -> Result<u32, Fault>
    ensures { Canon Numbered text.now out.old draft.old table.old arena.old work.old
        out.new draft.new table.new arena.new work.new (outcome_of result) }
{
    canon_in(Form::Numbered, text, out, draft, table, arena, work)
}

// The lines of one root of a table, or the refusal.
pub fn canon_root(
    text: &[u8],
    id: u32,
    sign: u32,
    out: &mut [u8],
    draft: &mut [u8],
    table: &mut [u32],
    arena: &mut [u32],
    work: &mut [u32],
) -> Result<u32, Fault>
    ensures { CanonRoot text.now id sign out.old draft.old table.old arena.old
        work.old out.new draft.new table.new arena.new work.new (outcome_of result) }
{
    call(text, Asked::Root(id, sign), out, draft, table, arena, work)
}
