// A whole table text, read into rows, one for each line; refusals 1 to 5 by number and line.
#![tactic(auto)]

pub mod judging;
pub mod kinds;
pub mod ranges;
pub mod rows;

ghost use Rattle.std.specs.Prelude.{◌≤◌, length};
ghost use Rattle.layout.specs.Layout.{table_length};
ghost use Rattle.table.specs.Rows.{ReadInto};

use rules::{Fault, Refusal};

// How many rows each section has. Row 0 is the budget line, and the sections follow in their order.
#[derive(Clone, Copy)]
pub struct Table {
    pub names: usize,
    pub entries: usize,
    pub pairs: usize,
    pub marks: usize,
    pub roots: usize,
}

impl Table {
    pub const TEXT: usize = 65536;

    pub const NAMES: usize = 1024;

    pub const LONGEST_NAME: usize = 255;

    pub const ENTRIES: usize = 2048;

    pub const IDS: usize = 8192;

    pub const PAIRS: usize = 2048;

    pub const MARKS: usize = 512;

    pub const ROOTS: usize = 64;
}

// A table text, read into rows.
pub fn read(text: &[u8], table: &mut [u32]) -> Result<Table, Fault>
    requires { table_length ≤ length table.old }
    ensures { ReadInto text.now table.old table.new result }
{
    if Table::TEXT < text.len() {
        return Err(Fault {
            refusal: Refusal::Ceiling,
            line: 0,
        });
    }
    judging::start(table);
    let t = judging::lines_of(text, table)?;
    ranges::known_of(table, t)?;
    Ok(t)
}
