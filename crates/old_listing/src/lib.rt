// An old listing: whether it is in form for the roots of a table, and where each root's lines stand.
#![tactic(auto)]

ghost use Rattle.std.specs.Prelude.{◌≤◌, length};
ghost use Rattle.rules.specs.Types.{node_kinds};
ghost use Rattle.rules.specs.Listing.{head_kinds};
ghost use Rattle.text.specs.Reads.{FieldRoom, Row};
ghost use Rattle.old_listing.specs.Olds.{LineEnd, SetFits, MembersFit, NodeFits, NodeLine, Ready, Nodes, ForRoot, Count, After};
ghost use Rattle.old_listing.specs.Olds.{TakesRoot, RootAt, Roots, IsAnswers, IsNumbered, TakesHeader, Read};

use cells::{get, place};
use lang_ty::arena::{OutputTy, Pass};
use layout::ArenaSlice;
use rules::Form;
use table::{Table, ranges, rows};
use text::kinds;
use text::kinds::{HEADS, NODES};

// The earliest line that is not in form; 0 where the text is too long or the words are too few.
#[derive(Clone, Copy)]
pub struct LineAtFault(pub u32);

// Where the next line begins, and its number.
#[derive(Clone, Copy)]
struct Reached {
    at: usize,
    line: u32,
}

// What a line of a root has to name.
#[derive(Clone, Copy)]
struct Root {
    id: u32,
    sign: u32,
}

// Where the line at next ends; one without an end is at fault.
fn line_end(s: &[u8], next: Reached) -> Result<usize, LineAtFault>
    requires { next.at ≤ length s.now }
    ensures { LineEnd s.now next.at next.line result }
{
    let m = s.len();
    let e = text::seek(s, next.at, m, b'\n');
    if e == m {
        return Err(LineAtFault(next.line));
    }
    Ok(e)
}

// The row of a node line after its number.
fn node_row(s: &[u8], from: usize, to: usize, words: &mut [u32]) -> Option<usize>
    requires { FieldRoom s.now from to words.old 0 }
    ensures { Row node_kinds s.now from to 0 words.old words.new result }
{
    kinds::row_of(s, from, to, &NODES, 11, words, 0)
}

// The row of a line that is no node's.
fn head_row(s: &[u8], from: usize, to: usize, words: &mut [u32]) -> Option<usize>
    requires { FieldRoom s.now from to words.old 0 }
    ensures { Row head_kinds s.now from to 0 words.old words.new result }
{
    kinds::row_of(s, from, to, &HEADS, 3, words, 0)
}

// Whether the set whose row ends at to fits node i: its children come before i, its keys ascend and are below names.
fn set_fits(words: &[u32], to: usize, names: u32, i: u32) -> bool
    ensures { SetFits words.now to names i result }
{
    let p = rows::places_of(words, 0, to);
    ranges::set_known(words, 0, to, p, i as usize)
        && rows::ascend(words, 0, to, 2, 2, p.fields)
        && rows::ascend(words, 0, to, p.opens + 2, 1, p.optional)
        && ranges::keys_known(words, 0, to, p, names as usize)
}

// Whether the members in the row that ends at to come before i and are no more than a list may have.
fn members_fit(words: &[u32], to: usize, i: u32) -> bool
    ensures { MembersFit words.now to i result }
{
    let n = rows::at(words, 0, to, 1);
    rows::below(words, 0, to, 2, 1, n as usize, i as usize) && n <= Pass::MEMBERS
}

// Whether the row that ends at to fits node i.
fn node_fits(words: &[u32], to: usize, names: u32, i: u32) -> bool
    ensures { NodeFits words.now to names i result }
{
    match OutputTy::of_word(rows::at(words, 0, to, 0)) {
        OutputTy::AttrSet => set_fits(words, to, names, i),
        OutputTy::Union | OutputTy::Intersection => members_fit(words, to, i),
        OutputTy::Lambda => rows::below(words, 0, to, 1, 1, 2, i as usize),
        OutputTy::Named => rows::below(words, 0, to, 2, 1, 1, i as usize),
        OutputTy::List | OutputTy::Neg => rows::below(words, 0, to, 1, 1, 1, i as usize),
        _ => true,
    }
}

// Whether the line between from and to is node i's, in form.
fn node_line(s: &[u8], from: usize, to: usize, words: &mut [u32], names: u32, i: u32) -> bool
    requires { FieldRoom s.now from to words.old 0 }
    ensures { NodeLine s.now from to names i result }
{
    let k = text::seek(s, from, to, b'\t');
    let Some(n) = text::number_of(s, from, k) else {
        return false;
    };
    if n != i || k == to {
        return false;
    }
    let Some(t) = node_row(s, k + 1, to, words) else {
        return false;
    };
    node_fits(words, t, names, i)
}

// The lines of n nodes, from the line at from on.
fn nodes(
    s: &[u8],
    from: Reached,
    words: &mut [u32],
    names: u32,
    n: u32,
) -> Result<Reached, LineAtFault>
    requires { Ready s.now from.at from.line words.old }
    ensures { Nodes s.now from.at from.line names n result }
{
    let mut next = from;
    for i in 0..n {
        let e = line_end(s, next)?;
        if !node_line(s, next.at, e, words, names, i) {
            return Err(LineAtFault(next.line));
        }
        next = Reached {
            at: e + 1,
            line: next.line + 1,
        };
    }
    Ok(next)
}

// Whether the row that ends at to is for the root.
fn for_root(words: &[u32], to: usize, root: Root) -> bool
    ensures { ForRoot words.now to root.id root.sign result }
{
    rows::at(words, 0, to, 1) == root.id && rows::at(words, 0, to, 2) == root.sign
}

// How many nodes follow the line whose row ends at to, if that is in form for the root.
fn count(words: &[u32], to: usize, root: Root) -> Option<u32>
    ensures { Count words.now to root.id root.sign result }
{
    let kind = rows::at(words, 0, to, 0);
    let a = rows::at(words, 0, to, 3);
    let n = rows::at(words, 0, to, 7);
    if !for_root(words, to, root) {
        return None;
    }
    match kind {
        1 if (1..=2).contains(&a) && (1..=Pass::NODES).contains(&n) => Some(n),
        2 if (6..=9).contains(&a) => Some(0),
        _ => None,
    }
}

// How many nodes follow the root's line between from and to, if that is in form.
fn nodes_after(s: &[u8], from: usize, to: usize, words: &mut [u32], root: Root) -> Option<u32>
    requires { FieldRoom s.now from to words.old 0 }
    ensures { After s.now from to root.id root.sign result }
{
    let Some(t) = head_row(s, from, to, words) else {
        return None;
    };
    count(words, t, root)
}

// The lines of a root, from the line at from on.
fn root_lines(
    s: &[u8],
    from: Reached,
    words: &mut [u32],
    names: u32,
    root: Root,
) -> Result<Reached, LineAtFault>
    requires { Ready s.now from.at from.line words.old }
    ensures { TakesRoot s.now from.at from.line names root.id root.sign result }
{
    let e = line_end(s, from)?;
    let n = nodes_after(s, from.at, e, words, root).ok_or(LineAtFault(from.line))?;
    let next = Reached {
        at: e + 1,
        line: from.line + 1,
    };
    nodes(s, next, words, names, n)
}

// Root i, by its row: a kind, the id, the sign.
fn root_at(table: &[u32], first: u32, i: u32) -> Root
    ensures { RootAt table.now first i result }
{
    let row = get(table, place(first, i));
    Root {
        id: get(table, place(row, 1)),
        sign: get(table, place(row, 2)),
    }
}

// The lines of all roots, from the line at from on, and nothing after them.
fn roots_from(
    s: &[u8],
    spans: &mut [u32],
    table: &[u32],
    words: &mut [u32],
    from: Reached,
    names: u32,
    first: u32,
    roots: u32,
) -> Result<(), LineAtFault>
    requires { Ready s.now from.at from.line words.old }
    ensures { Roots s.now from.at from.line names table.now first roots spans.old spans.new result }
{
    let mut next = from;
    for i in 0..roots {
        cells::set(spans, i, next.at as u32);
        next = root_lines(s, next, words, names, root_at(table, first, i))?;
    }
    cells::set(spans, roots, next.at as u32);
    if next.at < s.len() {
        return Err(LineAtFault(next.line));
    }
    Ok(())
}

// Whether the line between from and to is `answers` with this count.
fn is_answers(s: &[u8], from: usize, to: usize, words: &mut [u32], roots: u32) -> bool
    requires { FieldRoom s.now from to words.old 0 }
    ensures { IsAnswers s.now from to roots result }
{
    let Some(t) = head_row(s, from, to, words) else {
        return false;
    };
    rows::at(words, 0, t, 0) == 0 && rows::at(words, 0, t, 1) == roots
}

// Whether the line between from and to is `numbered`.
fn is_numbered(s: &[u8], from: usize, to: usize) -> bool
    requires { (from ≤ to) × (to ≤ length s.now) }
    ensures { IsNumbered s.now from to result }
{
    s[from..to] == b"numbered"[..]
}

// After the line `answers`: line 2 of a numbered listing is `numbered`.
fn header(s: &[u8], from: usize, form: Form) -> Result<Reached, LineAtFault>
    requires { (1 ≤ from) × (from ≤ length s.now) }
    ensures { TakesHeader form s.now from result }
{
    let next = Reached { at: from, line: 2 };
    match form {
        Form::Plain => Ok(next),
        Form::Numbered => {
            let e = line_end(s, next)?;
            if !is_numbered(s, from, e) {
                return Err(LineAtFault(2));
            }
            Ok(Reached { at: e + 1, line: 3 })
        }
    }
}

// Reads an old listing of this form for the roots whose rows begin where table tells from first on: a kind, the id, the sign. In form, root i's lines are
// those from spans[i] to spans[i + 1]. The words are ArenaSlice::LINE at least, and the spans one more than the roots.
pub fn read_old(
    form: Form,
    text: &[u8],
    spans: &mut [u32],
    table: &[u32],
    words: &mut [u32],
    names: u32,
    first: u32,
    roots: u32,
) -> Result<(), LineAtFault>
    ensures { Read form text.now names table.now first roots spans.old words.old spans.new result }
{
    if Table::TEXT < text.len() || words.len() < ArenaSlice::LINE {
        return Err(LineAtFault(0));
    }
    let e = line_end(text, Reached { at: 0, line: 1 })?;
    if !is_answers(text, 0, e, words, roots) {
        return Err(LineAtFault(1));
    }
    let next = header(text, e + 1, form)?;
    roots_from(text, spans, table, words, next, names, first, roots)
}
