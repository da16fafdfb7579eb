// Runs the examples: each record of the input has what a call is given and the answer that it must print. Writes each record that differs,
// then how many were tried and how many differ.
#![tactic(auto)]

ghost use Rattle.std.specs.Prelude.{◌≡◌, ◌<◌, ◌≤◌, length};
ghost use Rattle.examples.specs.Records.{Ahead, Behind};

use programs::Part;
use rules::Form;
use std::io;

// Room for all records. An input that is longer is cut, and the count tells it.
fn room() -> [u8; 1048576]
    ensures { 1048576 ≡ length result }
{
    [0u8; 1048576]
}

// The part after the head at a, a line of a word, a tab and the part's length. Where that is no number or goes too far, the part ends with
// the input.
fn part_at(s: &[u8], a: usize) -> Part
    requires { a ≤ length s.now }
    ensures { Behind a (length s.now) result }
{
    let n = s.len();
    let end = text::seek(s, a, n, b'\n');
    let from = n.min(end + 1);
    let tab = text::seek(s, a, end, b'\t');
    let to = match text::digits_of(s, tab + 1, end) {
        Some(length) => n.min(from.saturating_add(length as usize)),
        None => n,
    };
    Part { from, to }
}

// A record: where what is given begins and ends, and where the answer does.
#[derive(Clone, Copy)]
struct Record {
    from: usize,
    mid: usize,
    start: usize,
    end: usize,
}

// The record whose head is at a.
fn record_at(s: &[u8], a: usize) -> Record
    requires { a < length s.now }
    ensures { Ahead a (length s.now) result }
{
    let given = part_at(s, a);
    let mid = given.to;
    let answer = part_at(s, mid);
    Record {
        from: given.from,
        mid,
        start: answer.from,
        end: answer.to,
    }
}

// What the call that a head names prints, as the first bytes of out; none for a call that is not known.
fn run(head: &[u8], given: &[u8], out: &mut [u8]) -> u32 {
    if head.starts_with(b"canon\t") {
        return canon_call::program::answer_canon(Form::Plain, given, out);
    }
    if head.starts_with(b"recheck\t") {
        return recheck_call::program::answer_parts(Form::Plain, given, out);
    }
    if head.starts_with(b"canon_numbered\t") {
        return canon_call::program::answer_canon(Form::Numbered, given, out);
    }
    if head.starts_with(b"recheck_numbered\t") {
        return recheck_call::program::answer_parts(Form::Numbered, given, out);
    }
    0
}

// Whether the call of a record prints its answer. Where it does not, the record's number and head are written, and what was printed.
fn holds(rt: &impl Print, number: u64, s: &[u8], a: usize, r: Record) -> io::Result<bool>
    requires { Ahead a (length s.now) r }
{
    let mut out = programs::out_room();
    let size = run(&s[a..r.from], &s[r.from..r.mid], &mut out) as usize;
    if out.get(..size) == Some(&s[r.start..r.end]) {
        return Ok(true);
    }
    print!(rt; "record {number} differs: ")?;
    programs::show(rt, &s[a..r.from], r.from - a)?;
    programs::show(rt, &out, size)?;
    Ok(false)
}

// How many examples were tried, and how many of them differ.
#[derive(Clone, Copy)]
struct Tally {
    tried: u64,
    differ: u64,
}

// Tries each record of the input.
fn try_all(rt: &impl Print, input: &[u8]) -> io::Result<Tally> {
    let n = input.len();
    let mut tally = Tally {
        tried: 0,
        differ: 0,
    };
    let mut a = 0;
    while a < n {
        let r = record_at(input, a);
        tally.tried += 1;
        if !holds(rt, tally.tried, input, a, r)? {
            tally.differ += 1;
        }
        a = r.end;
    }
    Ok(tally)
}

fn main(rt: HostRuntime) -> io::Result<()> {
    let mut input = room();
    let n = programs::read_room(&rt, &mut input)?;
    let t = try_all(&rt, &input[..n])?;
    println!(rt; "{} examples, {} differ", t.tried, t.differ)
}
