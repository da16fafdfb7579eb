// The lines of a table's roots, one after the other. In the text of recheck, which mixes old lines and new ones, they stand after a line of
// `kept` or `redone` for each root. What recheck knows of the old listing lies in the old table's slice: where each root's lines begin, and
// which roots are redone.
ghost use Rattle.std.specs.Prelude.{true, ◌++◌};
ghost use Rattle.cells.specs.Part.{run};
ghost use Rattle.rules.specs.Text.{line_text};
ghost use Rattle.listing.specs.Writes.{Writes, Wrote};
ghost use Rattle.answers.specs.Mixes.{slice_of, is_given, IsKept, Keeps, tab_before, word_at, WritesOld, WritesNext, WritesRoots};

use crate::roots;
use cells::{at, get, place};
use layout::SpanSlice;
use listing::{Writer, lines};
use prepare::Prepared;
use rules::Form;

// Whether root i keeps its old lines.
fn is_kept(old: &[u32], i: u32) -> bool
    ensures { IsKept old.now true i result }
{
    get(old, place(SpanSlice::REDONE, i)) == 0
}

// The old table's slice, if it is given and root i keeps its old lines.
fn keeping(old: Option<&[u32]>, i: u32) -> Option<&[u32]>
    ensures { Keeps old.entry i result }
{
    let old = old?;
    if is_kept(old, i) { Some(old) } else { None }
}

// A tab before each word but the first.
fn tab_before(w: &mut Writer, i: u32)
    ensures { Writes (Wrote (tab_before i)) w.old w.new }
{
    if i != 0 {
        w.byte(b'\t');
    }
}

// `kept` or `redone` for root i.
fn write_word(w: &mut Writer, old: &[u32], i: u32)
    ensures { Writes (Wrote (tab_before i ++ word_at old.now i)) w.old w.new }
{
    tab_before(w, i);
    if is_kept(old, i) {
        w.word(b"kept");
    } else {
        w.word(b"redone");
    }
}

// The line of `kept` or `redone` for each root.
pub fn write_words(w: &mut Writer, old: &[u32], n: u32)
    ensures { Writes (Wrote (line_text (run (word_at old.now) 0 n))) w.old w.new }
{
    for i in 0..n {
        write_word(w, old, i);
    }
    w.byte(b'\n');
}

// The bytes of the old listing between two places.
fn write_old(listing: &[u8], w: &mut Writer, from: usize, to: usize)
    ensures { Writes (WritesOld listing.now from to) w.old w.new }
{
    if let Some(lines) = listing.get(from..to) {
        w.word(lines);
    }
}

// The lines of root i, old ones or new ones. Here, after the test of the root's flag, is the one place where recheck comes to the run.
fn write_root(
    listing: &[u8],
    w: &mut Writer,
    old: Option<&[u32]>,
    table: &mut [u32],
    g: Prepared,
    arena: &mut [u32],
    work: &mut [u32],
    form: Form,
    i: u32,
)
    ensures { Writes (λ p o o' r. WritesNext listing.now (slice_of old.entry) (is_given old.entry) table.old g arena.old work.old form p i
        o table.new o' r) w.old w.new }
{
    if let Some(old) = keeping(old, i) {
        let from = at(old, i) as usize;
        let to = get(old, place(1, i)) as usize;
        return write_old(listing, w, from, to);
    }
    let row = get(table, place(g.first, i));
    let id = get(table, place(row, 1));
    let sign = get(table, place(row, 2));
    roots::write_root(w, table, g, arena, work, form, id, sign);
}

// The line `answers`, the line `numbered` if the variables are, and the lines of every root.
pub fn write_roots(
    listing: &[u8],
    w: &mut Writer,
    old: Option<&[u32]>,
    table: &mut [u32],
    g: Prepared,
    arena: &mut [u32],
    work: &mut [u32],
    form: Form,
)
    ensures { Writes (λ p o o' r. WritesRoots listing.now (slice_of old.entry) (is_given old.entry) table.old g arena.old work.old form p
        o table.new o' r) w.old w.new }
{
    lines::answers(w, form, g.roots);
    for i in 0..g.roots {
        write_root(listing, w, old, table, g, arena, work, form, i);
    }
}
