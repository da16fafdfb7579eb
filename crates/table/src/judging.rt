// A line's row judged, by its section, the ceilings and the order, and all lines so.
ghost use Rattle.std.specs.Prelude.{◌<◌, ◌≤◌, length};
ghost use Rattle.layout.specs.Layout.{table_length};
ghost use Rattle.rules.specs.Ceilings.{most_text};
ghost use Rattle.table.specs.Rows.{number_of_section, SectionOf, Weight, KeysAscend, Few, Counted, NamesOver, EntriesOver, RestOver, Over, InOrder, NameAscends, Ascends};
ghost use Rattle.table.specs.Rows.{RowWeight, Size, StageAfter, Fine, Advanced, Judged, Unread, Begun, Started, Ready, Kinds, Lined, Lines};

use crate::Table;
use crate::kinds::{Kind, kind_of, row_of};
use crate::rows::{ascend, at, before, begin, places_of};
use layout::TableSlice;
use rules::{Fault, Refusal};
use text::kinds::TABLE;

// The sections of a table, in the order of their lines.
#[derive(Clone, Copy, PartialEq, Eq, PartialOrd, Ord)]
pub enum Section {
    Budget,
    Names,
    Entries,
    Pairs,
    Marks,
    Roots,
}

// What was read so far: the section that a line may still be of (the budget's before the budget line), the rows, where the last ends.
#[derive(Clone, Copy)]
pub struct Progress {
    pub stage: Section,
    pub lines: usize,
    pub top: usize,
    pub ids: usize,
    pub table: Table,
}

// The section of a row, by its kind.
fn section_of(kind: u32) -> Section
    ensures { SectionOf kind result }
{
    match kind {
        1 => Section::Names,
        2..=12 => Section::Entries,
        13 => Section::Pairs,
        14 => Section::Marks,
        15 => Section::Roots,
        _ => Section::Budget,
    }
}

// The ids and keys of the entry whose row stands between from and to.
fn weight_of(words: &[u32], from: usize, to: usize) -> usize
    ensures { Weight words.now from to result }
{
    match kind_of(at(words, from, to, 0)) {
        Kind::Var => {
            let a = at(words, from, to, 1) as usize;
            let b = at(words, from, to, 2 + a) as usize;
            a + b
        }
        Kind::Set => {
            let p = places_of(words, from, to);
            p.fields + p.held + (p.fields + p.optional)
        }
        Kind::List | Kind::Neg | Kind::Named => 1,
        Kind::Fn | Kind::Inter | Kind::Union => 2,
        Kind::Frozen | Kind::Other => 0,
    }
}

// Whether the keys of a set ascend, and its optional keys.
fn keys_ascend(words: &[u32], from: usize, to: usize) -> bool
    ensures { KeysAscend words.now from to result }
{
    if kind_of(at(words, from, to, 0)) != Kind::Set {
        return true;
    }
    let p = places_of(words, from, to);
    ascend(words, from, to, 2, 2, p.fields) && ascend(words, from, to, p.opens + 2, 1, p.optional)
}

// The counts with one row more of section s.
fn counted(t: Table, s: Section) -> Table
    requires { Few t }
    ensures { Counted t (number_of_section s) result }
{
    match s {
        Section::Budget => t,
        Section::Names => Table {
            names: t.names + 1,
            ..t
        },
        Section::Entries => Table {
            entries: t.entries + 1,
            ..t
        },
        Section::Pairs => Table {
            pairs: t.pairs + 1,
            ..t
        },
        Section::Marks => Table {
            marks: t.marks + 1,
            ..t
        },
        Section::Roots => Table {
            roots: t.roots + 1,
            ..t
        },
    }
}

// Whether there are too many names, or this row of section s is a name of too many bytes.
fn names_over(t: Table, s: Section, size: usize) -> bool
    ensures { NamesOver Table.NAMES Table.LONGEST_NAME t (number_of_section s) size result }
{
    Table::NAMES < t.names || s == Section::Names && Table::LONGEST_NAME < size
}

// Whether there are too many entries, or too many ids and keys in them.
fn entries_over(t: Table, ids: usize) -> bool
    ensures { EntriesOver Table.ENTRIES Table.IDS t ids result }
{
    Table::ENTRIES < t.entries || Table::IDS < ids
}

// Whether there are too many pairs, marks or roots.
fn rest_over(t: Table) -> bool
    ensures { RestOver Table.PAIRS Table.MARKS Table.ROOTS t result }
{
    Table::PAIRS < t.pairs || Table::MARKS < t.marks || Table::ROOTS < t.roots
}

// Whether a ceiling is passed, by a row of section s that has size words after its kind.
fn over(t: Table, ids: usize, s: Section, size: usize) -> bool
    ensures { Over t ids (number_of_section s) size result }
{
    names_over(t, s, size) || entries_over(t, ids) || rest_over(t)
}

// Whether a row of section s may follow; the budget line is the first and the only one of its section.
fn in_order(stage: Section, s: Section) -> bool
    ensures { InOrder (number_of_section stage) (number_of_section s) result }
{
    if stage == Section::Budget {
        s == Section::Budget
    } else {
        stage <= s
    }
}

// Whether the name whose row ends at to comes after the last one.
fn name_ascends(p: Progress, table: &[u32], to: usize) -> bool
    requires { Fine p }
    ensures { NameAscends p table.now to result }
{
    if p.table.names == 0 {
        return true;
    }
    let last = begin(table, p.table.names) as usize;
    before(table, last + 1, p.top, p.top + 1, to)
}

// Whether the name, or the keys, of the row of section s that ends at to ascend.
fn ascends(p: Progress, table: &[u32], to: usize, s: Section) -> bool
    requires { Fine p }
    ensures { Ascends p table.now to (number_of_section s) result }
{
    match s {
        Section::Names => name_ascends(p, table, to),
        Section::Entries => keys_ascend(table, p.top, to),
        _ => true,
    }
}

// The ids and keys of a row of section s: only entries have any.
fn row_weight(words: &[u32], from: usize, to: usize, s: Section) -> usize
    ensures { RowWeight words.now from to (number_of_section s) result }
{
    match s {
        Section::Entries => weight_of(words, from, to),
        _ => 0,
    }
}

// How many words a row has after its kind.
fn size_of(from: usize, to: usize) -> usize
    ensures { Size from to result }
{
    to.saturating_sub(from).saturating_sub(1)
}

// The section that a line may be of after one of section s.
fn stage_after(s: Section) -> Section
    ensures { StageAfter s result }
{
    s.max(Section::Names)
}

// What was read, with one row more, of section s, with ids ids and keys, that ends at to.
fn advance(p: Progress, s: Section, ids: usize, to: usize) -> Progress
    requires fine { Fine p }
    requires ids_bound { ids < 68719476736 }
    ensures { Advanced p s ids to result }
{
    Progress {
        stage: stage_after(s),
        lines: p.lines + 1,
        top: to,
        ids: p.ids + ids,
        table: counted(p.table, s),
    }
}

// What is said of the row that ends at to: 1, 2, 4, 5 in that order, or what was read with it.
fn judge(p: Progress, table: &[u32], to: usize) -> Result<Progress, Refusal>
    requires { Fine p }
    ensures { Judged p table.now to result }
{
    let kind = at(table, p.top, to, 0);
    let s = section_of(kind);
    if !in_order(p.stage, s) {
        return Err(Refusal::Form);
    }
    let q = advance(p, s, row_weight(table, p.top, to, s), to);
    if over(q.table, q.ids, s, size_of(p.top, to)) {
        return Err(Refusal::Ceiling);
    }
    if !ascends(p, table, to, s) {
        return Err(Refusal::Ascent);
    }
    if kind_of(kind) == Kind::Frozen {
        return Err(Refusal::Frozen);
    }
    Ok(q)
}

// The line between from and to: its row is written and judged, and kept if it is taken.
fn line(
    text: &[u8],
    from: usize,
    to: usize,
    forms: &[u8],
    table: &mut [u32],
    p: Progress,
) -> Result<Progress, Refusal>
    requires ready { Ready text.now from to table.old p }
    requires kinds { Kinds forms.now }
    ensures { Lined text.now from to p table.old table.new result }
{
    let Some(t) = row_of(text, from, to, forms, table, p.top) else {
        return Err(Refusal::Form);
    };
    let q = judge(p, table, t)?;
    cells::put(table, TableSlice::ROWS as usize + q.lines, t as u32);
    Ok(q)
}

// Nothing read yet.
fn unread() -> Progress
    ensures { Unread result }
{
    Progress {
        stage: Section::Budget,
        lines: 0,
        top: TableSlice::WORDS as usize,
        ids: 0,
        table: Table {
            names: 0,
            entries: 0,
            pairs: 0,
            marks: 0,
            roots: 0,
        },
    }
}

// No row yet: the first is to begin after the beginnings of rows.
pub fn start(table: &mut [u32])
    requires { table_length ≤ length table.old }
    ensures { Started table.old table.new }
{
    cells::set(table, TableSlice::ROWS, TableSlice::WORDS);
}

// The rows of all lines.
pub fn lines_of(text: &[u8], table: &mut [u32]) -> Result<Table, Fault>
    requires begun { Begun table.old }
    requires text_len_bound { length text.now ≤ most_text }
    ensures { Lines text.now table.old table.new result }
{
    let n = text.len();
    let mut from = 0;
    let mut p = unread();
    let forms = TABLE;
    while from < n {
        let e = text::seek(text, from, n, b'\n');
        let line_no = (p.lines + 1) as u32;
        if e == n {
            return Err(Fault {
                refusal: Refusal::Form,
                line: line_no,
            });
        }
        // No `map_err`: the proof did not close on what its closure answers.
        match line(text, from, e, &forms, table, p) {
            Err(refusal) => {
                return Err(Fault {
                    refusal,
                    line: line_no,
                });
            }
            Ok(q) => {
                p = q;
                from = e + 1;
            }
        }
    }
    if p.stage == Section::Budget {
        return Err(Fault {
            refusal: Refusal::Form,
            line: (p.lines + 1) as u32,
        });
    }
    Ok(p.table)
}
