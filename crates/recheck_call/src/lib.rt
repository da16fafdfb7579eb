// recheck and recheck_numbered: the listing of a table that was edited, with the listing from before the edit. A root that no edited entry is reached from
// keeps its old lines. A call tests what is lent to it, refuses a short scratch with 20 before all else, and leaves every scratch zero.
#![tactic(auto)]

pub mod program;

ghost use Rattle.rules.specs.declared.Form.TheVariants.{Plain, Numbered};
ghost use Rattle.outcomes.specs.Outcomes.{outcome_of};
ghost use Rattle.recheck_call.specs.Rechecked.{ComparesBoth, Answers, Rechecked};

use affected::flag_redone;
use answers::asked::{Asked, deliver};
use cells::clear;
use compare::comparable;
use layout::{ArenaSlice, TableSlice};
use old_listing::{LineAtFault, read_old};
use prepare::{first_root, number, prepare};
use rules::{Fault, Form, Refusal};
use table::Table;

// Two tables that were accepted: 10, then 11, then the roots flagged and the text.
fn compare_both(
    form: Form,
    listing: &[u8],
    out: &mut [u8],
    draft: &mut [u8],
    old: &mut [u32],
    u: Table,
    table: &mut [u32],
    t: Table,
    arena: &mut [u32],
    work: &mut [u32],
) -> Result<u32, Fault>
    ensures { ComparesBoth form listing.now out.old old.old u table.old t arena.old
        work.old out.new (outcome_of result) }
{
    if !comparable(old, u, table, t) {
        return Err(Fault {
            refusal: Refusal::Incomparable,
            line: 0,
        });
    }
    let names = number(t.names);
    let roots = number(t.roots);
    match read_old(
        form,
        listing,
        old,
        table,
        arena,
        names,
        first_root(t),
        roots,
    ) {
        Err(LineAtFault(line)) => Err(Fault {
            refusal: Refusal::Listing,
            line,
        }),
        Ok(()) => {
            let g = prepare(table, t);
            flag_redone(old, table, work, g.canon, g.first, g.roots);
            deliver(
                listing,
                out,
                draft,
                old,
                table,
                g,
                arena,
                work,
                Asked::Mixed(form),
            )
        }
    }
}

// A call before the scratch is wiped: 20, the old table's refusal, the new table's, whose facts are zero before the first run, and what comes
// of both.
fn answer(
    form: Form,
    old_text: &[u8],
    new_text: &[u8],
    listing: &[u8],
    out: &mut [u8],
    draft: &mut [u8],
    old: &mut [u32],
    table: &mut [u32],
    arena: &mut [u32],
    work: &mut [u32],
) -> Result<u32, Fault>
    ensures { Answers form old_text.now new_text.now listing.now out.old draft.old
        old.old table.old arena.old work.old out.new (outcome_of result) }
{
    if old.len() < TableSlice::LENGTH
        || outcomes::is_short(
            draft.len(),
            table.len(),
            arena.len(),
            ArenaSlice::LINE,
            work.len(),
        )
    {
        return Err(Fault {
            refusal: Refusal::Scratch,
            line: 0,
        });
    }
    let u = table::read(old_text, old)?;
    clear(table, 0, TableSlice::ROWS);
    let t = table::read(new_text, table)?;
    compare_both(form, listing, out, draft, old, u, table, t, arena, work)
}

// The listing of the new table in this form after a line of `kept` or `redone` for each root, or the refusal; the scratch is wiped after it.
pub fn recheck_in(
    form: Form,
    old_text: &[u8],
    new_text: &[u8],
    listing: &[u8],
    out: &mut [u8],
    draft: &mut [u8],
    old: &mut [u32],
    table: &mut [u32],
    arena: &mut [u32],
    work: &mut [u32],
) -> Result<u32, Fault>
    ensures { Rechecked form old_text.now new_text.now listing.now out.old draft.old
        old.old table.old arena.old work.old out.new draft.new old.new
        table.new arena.new work.new (outcome_of result) }
{
    let r = answer(
        form, old_text, new_text, listing, out, draft, old, table, arena, work,
    );
    old.fill(0);
    outcomes::wipe_all(draft, table, arena, work);
    r
}

// The same with plain listings.
pub fn recheck(
    old_text: &[u8],
    new_text: &[u8],
    listing: &[u8],
    out: &mut [u8],
    draft: &mut [u8],
    old: &mut [u32],
    table: &mut [u32],
    arena: &mut [u32],
    work: &mut [u32],
) -> Result<u32, Fault>
    ensures { Rechecked Plain old_text.now new_text.now listing.now out.old draft.old
        old.old table.old arena.old work.old out.new draft.new old.new
        table.new arena.new work.new (outcome_of result) }
{
    recheck_in(
        Form::Plain,
        old_text,
        new_text,
        listing,
        out,
        draft,
        old,
        table,
        arena,
        work,
    )
}

// The same with numbered listings. A plain one is refused at its second line.
pub fn recheck_numbered(
    old_text: &[u8],
    new_text: &[u8],
    listing: &[u8],
    out: &mut [u8],
    draft: &mut [u8],
    old: &mut [u32],
    table: &mut [u32],
    arena: &mut [u32],
    work: &mut [u32],
) -> Result<u32, Fault>
    ensures { Rechecked Numbered old_text.now new_text.now listing.now out.old draft.old
        old.old table.old arena.old work.old out.new draft.new old.new
        table.new arena.new work.new (outcome_of result) }
{
    recheck_in(
        Form::Numbered,
        old_text,
        new_text,
        listing,
        out,
        draft,
        old,
        table,
        arena,
        work,
    )
}
