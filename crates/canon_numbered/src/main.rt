// canon_numbered: a table on standard input, its numbered listing on standard output.
#![tactic(auto)]

use rules::Form;
use std::io;

fn main(rt: HostRuntime) -> io::Result<()> {
    let mut text = [0u8; programs::TEXT];
    let n = programs::read_room(&rt, &mut text)?;
    let mut out = [0u8; programs::OUT];
    let size = canon_call::program::answer_canon(Form::Numbered, &text[..n], &mut out);
    programs::show(&rt, &out, size as usize)
}
