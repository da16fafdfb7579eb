// The public calls over byte slices, their outcomes as numbers: `answers` has what a call comes to, `canon_call` and `recheck_call` the calls.
// `signatures_c` exports them to a Rust or C host.
#![tactic(auto)]

ghost use Rattle.std.specs.Prelude.{◌≡◌};
ghost use Rattle.rules.specs.declared.Form.TheVariants.{Plain, Numbered};
ghost use Rattle.canon_call.specs.Called.{Canon, CanonRoot};
ghost use Rattle.recheck_call.specs.Rechecked.{Rechecked};
ghost use Rattle.outcomes.specs.Outcomes.{outcome_of};
ghost use Rattle.signatures.specs.Exports.{refused_by, outcome_by, Code, Exported};

use canon_call::{canon, canon_numbered, canon_root};
use recheck_call::{recheck, recheck_numbered};
use rules::Fault;

// A refusal as the C interface has it, by any number.
#[derive(Clone, Copy)]
pub struct Refused {
    pub number: u32,
    pub line: u32,
}

impl From<Fault> for Refused {
    ghost from_gives = { λ f r. r ≡ refused_by f };

    fn from(f: Fault) -> Self {
        Refused {
            number: f.refusal.number(),
            line: f.line,
        }
    }
}

// An outcome as one number, for the C interface: a refusal's number and line, or 0 and the length written. It tells no other outcome of a call.
pub fn code(outcome: Result<u32, Refused>) -> u64
    ensures { Code (outcome_by outcome) result }
{
    match outcome {
        Ok(n) => n as u64,
        Err(r) => r.number as u64 * 4294967296 + r.line as u64,
    }
}

// The same of what a call comes to.
fn answer(outcome: Result<u32, Fault>) -> u64
    ensures { Code (outcome_of outcome) result }
{
    code(outcome.map_err(Refused::from))
}

pub fn pekonusit_canon(
    text: &[u8],
    out: &mut [u8],
    draft: &mut [u8],
    table: &mut [u32],
    arena: &mut [u32],
    work: &mut [u32],
) -> u64
    ensures { Exported (Canon Plain text.now out.old draft.old table.old arena.old work.old
        out.new draft.new table.new arena.new work.new) result }
{
    answer(canon(text, out, draft, table, arena, work))
}

pub fn pekonusit_canon_numbered(
    text: &[u8],
    out: &mut [u8],
    draft: &mut [u8],
    table: &mut [u32],
    arena: &mut [u32],
    work: &mut [u32],
) -> u64
    ensures { Exported (Canon Numbered text.now out.old draft.old table.old arena.old work.old
        out.new draft.new table.new arena.new work.new) result }
{
    answer(canon_numbered(text, out, draft, table, arena, work))
}

pub fn pekonusit_canon_root(
    text: &[u8],
    id: u32,
    sign: u32,
    out: &mut [u8],
    draft: &mut [u8],
    table: &mut [u32],
    arena: &mut [u32],
    work: &mut [u32],
) -> u64
    ensures { Exported (CanonRoot text.now id sign out.old draft.old table.old arena.old work.old
        out.new draft.new table.new arena.new work.new) result }
{
    answer(canon_root(text, id, sign, out, draft, table, arena, work))
}

pub fn pekonusit_recheck(
    old_text: &[u8],
    new_text: &[u8],
    listing: &[u8],
    out: &mut [u8],
    draft: &mut [u8],
    old: &mut [u32],
    table: &mut [u32],
    arena: &mut [u32],
    work: &mut [u32],
) -> u64
    ensures { Exported (Rechecked Plain old_text.now new_text.now listing.now out.old
        draft.old old.old table.old arena.old work.old
        out.new draft.new old.new table.new arena.new work.new) result }
{
    answer(recheck(
        old_text, new_text, listing, out, draft, old, table, arena, work,
    ))
}

pub fn pekonusit_recheck_numbered(
    old_text: &[u8],
    new_text: &[u8],
    listing: &[u8],
    out: &mut [u8],
    draft: &mut [u8],
    old: &mut [u32],
    table: &mut [u32],
    arena: &mut [u32],
    work: &mut [u32],
) -> u64
    ensures { Exported (Rechecked Numbered old_text.now new_text.now listing.now out.old
        draft.old old.old table.old arena.old work.old
        out.new draft.new old.new table.new arena.new work.new) result }
{
    answer(recheck_numbered(
        old_text, new_text, listing, out, draft, old, table, arena, work,
    ))
}
