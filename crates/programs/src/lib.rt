// What the programs share beside the calls: what they lend, what is shown of an outcome, the parts of an input, and what is read and written.
#![tactic(auto)]

ghost use Rattle.std.specs.Prelude.{◌≡◌, ◌≤◌, length, IfOk};
ghost use Rattle.rules.specs.Calls.{lent};
ghost use Rattle.outcomes.specs.Outcomes.{outcome_of};
ghost use Rattle.programs.specs.Rooms.{CanonReads, RecheckReads};
ghost use Rattle.programs.specs.Shows.{ShowsOutcome};
ghost use Rattle.programs.specs.Parts.{IsNext, Behind, UntilNext};

use listing::{Writer, lines};
use rules::Fault;
use std::io;
use std::io::{Read, Write};

// One byte more than a table may have: a longer input is answered like its first 65,537 bytes.
pub const TEXT: usize = 65537;

// Two tables as long as a table may be, each with its line `next`, and one byte more than an old listing may have. A longer input has a part
// that is too long within these bytes, so it is answered like them.
pub const PARTS: usize = 196619;

// As many bytes as a text may have: what a program lends a call for its output.
pub const OUT: usize = 65536;

pub fn text_room() -> [u8; TEXT]
    ensures size { 65537 ≡ length result }
    ensures enough { CanonReads (length result) }
{
    [0u8; TEXT]
}

pub fn parts_room() -> [u8; PARTS]
    ensures size { 196619 ≡ length result }
    ensures enough { RecheckReads (length result) }
{
    [0u8; PARTS]
}

pub fn out_room() -> [u8; OUT]
    ensures size { 65536 ≡ length result }
    ensures stated { lent ≡ length result }
{
    [0u8; OUT]
}

// Standard input read into a room, to its end or until the room is full: how many bytes came.
pub fn read_room(rt: &impl Input, room: &mut [u8]) -> io::Result<usize>
    ensures { IfOk result (λ n. n ≤ length room.new) }
{
    let mut input = rt.reader();
    let mut n = 0;
    while n < room.len() {
        let more = input.read(&mut room[n..])?;
        if more == 0 {
            break;
        }
        n += more;
    }
    Ok(n)
}

// How many bytes of out are to be shown: the text that was written there, or the line `refused`.
pub fn shown(outcome: Result<u32, Fault>, out: &mut [u8]) -> u32
    ensures { ShowsOutcome (outcome_of outcome) out.old out.new result }
{
    match outcome {
        Ok(n) => n,
        Err(f) => {
            let mut w = Writer { out, at: 0 };
            lines::refused_call(&mut w, f.refusal.number(), f.line);
            w.at
        }
    }
}

// A part of an input: the bytes from one place up to another.
#[derive(Clone, Copy)]
pub struct Part {
    pub from: usize,
    pub to: usize,
}

// Whether a line begins at i that is `next`, with its line feed; lines begin at from.
fn is_next(s: &[u8], from: usize, i: usize) -> bool
    requires { i ≤ length s.now }
    ensures { IsNext s.now from i result }
{
    s[i..].starts_with(b"next\n") && (i <= from || s[i - 1] == b'\n')
}

// The part from a place on, up to the first line that is `next`, or to the end of the input.
pub fn until_next(s: &[u8], from: usize) -> Part
    requires { from ≤ length s.now }
    ensures { UntilNext s.now from result }
{
    let n = s.len();
    for i in from..n {
        if is_next(s, from, i) {
            return Part { from, to: i };
        }
    }
    Part { from, to: n }
}

// Where the part after one that ends there begins: after its line `next`, or at the end of the input.
pub fn behind(s: &[u8], to: usize) -> usize
    requires { to ≤ length s.now }
    ensures { Behind (length s.now) to result }
{
    (to + 5).min(s.len())
}

// The first n bytes of a slice written to standard output, as far as it has them.
pub fn show(rt: &impl Print, s: &[u8], n: usize) -> io::Result<()> {
    if n <= s.len() {
        io::writer(rt).write_all(&s[..n])?;
    }
    Ok(())
}
