// canon: a table on standard input, its listing on standard output.
#![tactic(auto)]

use rules::Form;
use std::io;

fn main(rt: HostRuntime) -> io::Result<()> {
    let mut text = programs::text_room();
    let n = programs::read_room(&rt, &mut text)?;
    let mut out = programs::out_room();
    let size = canon_call::program::answer_canon(Form::Plain, &text[..n], &mut out);
    programs::show(&rt, &out, size as usize)
}
