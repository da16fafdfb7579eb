// recheck: an old table, a line `next`, a new table, `next` and an old listing on standard input, the new listing on standard output.
#![tactic(auto)]

use rules::Form;
use std::io;

fn main(rt: HostRuntime) -> io::Result<()> {
    let mut text = programs::parts_room();
    let n = programs::read_room(&rt, &mut text)?;
    let mut out = programs::out_room();
    let size = recheck_call::program::answer_parts(Form::Plain, &text[..n], &mut out);
    programs::show(&rt, &out, size as usize)
}
