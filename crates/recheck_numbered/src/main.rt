// recheck_numbered: recheck, with a numbered listing before and after.
#![tactic(auto)]

use rules::Form;
use std::io;

fn main(rt: HostRuntime) -> io::Result<()> {
    let mut text = programs::parts_room();
    let n = programs::read_room(&rt, &mut text)?;
    let mut out = programs::out_room();
    let size = recheck_call::program::answer_parts(Form::Numbered, &text[..n], &mut out);
    programs::show(&rt, &out, size as usize)
}
