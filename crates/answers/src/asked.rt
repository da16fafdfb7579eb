// What is asked of a table that was accepted, as text, and the text brought to the output if it fits.
ghost use Rattle.outcomes.specs.Outcomes.{outcome_of};
ghost use Rattle.answers.specs.Asks.{WritesAsked, Delivers};

use crate::{mixed, roots};
use listing::Writer;
use prepare::Prepared;
use rules::{Fault, Form, Refusal};

// The lines of all roots after `answers`; those of one id and sign (0 for +), which are plain; or recheck's text.
#[derive(Clone, Copy)]
pub enum Asked {
    All(Form),
    Root(u32, u32),
    Mixed(Form),
}

// What is asked, written from the beginning of a slice on; the length of the text. Only recheck's text reads the old listing and the slice
// of the old table.
fn write_asked(
    listing: &[u8],
    out: &mut [u8],
    old: &[u32],
    table: &mut [u32],
    g: Prepared,
    arena: &mut [u32],
    work: &mut [u32],
    asked: Asked,
) -> u32
    ensures { WritesAsked listing.now old.now table.old g arena.old work.old asked
        out.old table.new out.new result }
{
    let mut w = Writer { out, at: 0 };
    match asked {
        Asked::All(form) => {
            mixed::write_roots(listing, &mut w, None, table, g, arena, work, form);
            w.at
        }
        Asked::Root(id, sign) => {
            roots::write_root(&mut w, table, g, arena, work, Form::Plain, id, sign);
            w.at
        }
        Asked::Mixed(form) => {
            mixed::write_words(&mut w, old, g.roots);
            mixed::write_roots(listing, &mut w, Some(old), table, g, arena, work, form);
            w.at
        }
    }
}

// What is asked, made in the draft, and copied if it fits the output. A text longer than the draft is written once more, straight into the
// output.
pub fn deliver(
    listing: &[u8],
    out: &mut [u8],
    draft: &mut [u8],
    old: &[u32],
    table: &mut [u32],
    g: Prepared,
    arena: &mut [u32],
    work: &mut [u32],
    asked: Asked,
) -> Result<u32, Fault>
    ensures { Delivers listing.now out.old old.now table.old g arena.old work.old
        asked out.new (outcome_of result) }
{
    let size = write_asked(listing, draft, old, table, g, arena, work, asked);
    let len = size as usize;
    if out.len() < len {
        return Err(Fault {
            refusal: Refusal::Output,
            line: 0,
        });
    }
    if draft.len() < len {
        write_asked(listing, out, old, table, g, arena, work, asked);
    } else {
        outcomes::copy(out, draft, len);
    }
    Ok(size)
}
