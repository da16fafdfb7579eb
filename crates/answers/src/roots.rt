// A root of a table that was accepted, run.
ghost use Rattle.listing.specs.Writes.{Writes};
ghost use Rattle.answers.specs.Runs.{PolarityIs, WritesRoot};

use lang_check::collect;
use listing::{Writer, lines};
use prepare::Prepared;
use rules::{Form, Polarity};

fn polarity(sign: u32) -> Polarity
    ensures { PolarityIs sign result }
{
    if sign == 0 {
        Polarity::Positive
    } else {
        Polarity::Negative
    }
}

// The lines of one root. This is the one place where the run is called.
pub fn write_root(
    w: &mut Writer,
    table: &mut [u32],
    g: Prepared,
    arena: &mut [u32],
    work: &mut [u32],
    form: Form,
    id: u32,
    sign: u32,
)
    ensures { Writes (λ p o o' r. WritesRoot table.old g arena.old work.old form p id sign o table.new o' r)
        w.old w.new }
{
    match collect::canonicalize(table, g.canon, arena, work, id, polarity(sign)) {
        Ok(s) => lines::root_lines(w, arena, work, form, id, sign, s),
        Err(k) => lines::refused_root(w, id, sign, k.number()),
    }
}
