// The lines of a listing.
ghost use Rattle.std.specs.Prelude.{◌≡◌, [], ◌∷◌};
ghost use Rattle.rules.specs.Plain.{ascii};
ghost use Rattle.rules.specs.Text.{tab, dash, decimal, line_text};
ghost use Rattle.rules.specs.Canonicalizer.{refused_with};
ghost use Rattle.rules.specs.Listing.{numbered_text, answers_text, answer_text};
ghost use Rattle.listing.specs.Writes.{Writes, Wrote};
ghost use Rattle.listing.specs.Printed.{tabbed, count_texts, head_line, parted_by, numbered, WroteNumbers, WroteList, WroteFields, WroteSet, WroteContents};
ghost use Rattle.listing.specs.Printed.{ShowsVariable, CountsVariable, WroteNode, WroteNodes, WroteRoot};

use crate::walk;
use crate::write::Writer;
use cells::{add, get, place};
use lang_ty::arena::{OutputTy, Shown};
use lang_ty::disjoint::set_place;
use lang_ty::{arena, attrset};
use rules::Form;
use text::kinds::{HEADS, NODES};

// `numbered`, on a line of its own, if the variables are.
fn numbered(w: &mut Writer, form: Form)
    ensures { Writes (Wrote (numbered_text form)) w.old w.new }
{
    match form {
        Form::Plain => {}
        Form::Numbered => w.word(b"numbered\n"),
    }
}

// `answers`, root count; then `numbered`, if the variables are.
pub fn answers(w: &mut Writer, form: Form, roots: u32)
    ensures { Writes (Wrote (answers_text form roots)) w.old w.new }
{
    w.keyword(&HEADS, 0);
    w.number_field(roots);
    w.byte(b'\n');
    numbered(w, form);
}

// `refused`, number, line.
pub fn refused_call(w: &mut Writer, number: u32, line: u32)
    ensures { Writes (Wrote (line_text (ascii "refused" ∷ decimal number ∷ decimal line ∷ []))) w.old w.new }
{
    w.keyword(&HEADS, 2);
    w.number_field(number);
    w.number_field(line);
    w.byte(b'\n');
}

// `refused`, id, sign, number.
pub fn refused_root(w: &mut Writer, id: u32, sign: u32, number: u32)
    ensures { Writes (Wrote (answer_text id sign (refused_with number))) w.old w.new }
{
    w.keyword(&HEADS, 2);
    w.number_field(id);
    w.sign_field(sign);
    w.number_field(number);
    w.byte(b'\n');
}

// Passes, operations, sorted, bailed, node count.
fn counts(w: &mut Writer, s: Shown, n: u32)
    ensures { Writes (Wrote (tabbed (count_texts s n))) w.old w.new }
{
    w.number_field(s.passes);
    w.number_field(s.ops);
    w.number_field(u32::from(s.sorted));
    w.number_field(u32::from(s.bailed));
    w.number_field(n);
}

// `root`, id, sign, and the counts.
fn root_line(w: &mut Writer, id: u32, sign: u32, s: Shown, n: u32)
    ensures { Writes (Wrote (head_line id sign s n)) w.old w.new }
{
    w.keyword(&HEADS, 1);
    w.number_field(id);
    w.sign_field(sign);
    counts(w, s, n);
    w.byte(b'\n');
}

// Before element i of a list: a tab, or the comma that parts it from the one before.
fn before(w: &mut Writer, i: u32)
    ensures { Writes (Wrote (parted_by i ∷ [])) w.old w.new }
{
    if i == 0 {
        w.byte(b'\t');
    } else {
        w.byte(b',');
    }
}

// A tab and `-`, an empty list.
fn no_list(w: &mut Writer)
    ensures { Writes (Wrote (tab ∷ dash)) w.old w.new }
{
    w.word(b"\t-");
}

// A tab and n numbers, each by its place.
fn number_list<F: Fn(u32) -> u32>(w: &mut Writer, n: u32, number: F)
    requires { F.IsAlwaysCallable number }
    ensures { Writes (WroteNumbers (F.post number) n) w.old w.new }
{
    if n == 0 {
        return no_list(w);
    }
    for i in 0..n {
        before(w, i);
        w.decimal(number(i));
    }
}

// A tab and the n nodes from a on, by their numbers.
fn node_list(w: &mut Writer, words: &[u32], work: &[u32], a: u32, n: u32)
    ensures { Writes (WroteList (numbered work.now) words.now a n) w.old w.new }
{
    number_list(w, n, |i| walk::number(work, get(words, place(a, i))));
}

// A tab and the n keys from a on.
fn key_list(w: &mut Writer, words: &[u32], a: u32, n: u32)
    ensures { Writes (WroteList decimal words.now a n) w.old w.new }
{
    number_list(w, n, |i| get(words, place(a, i)));
}

// A tab and the fields of the set at a, a key and a node each: two numbers, so no number_list.
fn field_list(w: &mut Writer, words: &[u32], work: &[u32], a: u32)
    ensures { Writes (WroteFields words.now work.now a) w.old w.new }
{
    let n = attrset::fields(words, a);
    if n == 0 {
        return no_list(w);
    }
    for i in 0..n {
        before(w, i);
        w.decimal(attrset::key(words, a, i));
        w.byte(b':');
        w.decimal(walk::number(work, attrset::field_type(words, a, i)));
    }
}

// Fields, dyn, open and optional keys of the set at a.
fn set_contents(w: &mut Writer, words: &[u32], work: &[u32], a: u32)
    ensures { Writes (WroteSet words.now work.now a) w.old w.new }
{
    field_list(w, words, work, a);
    let d = attrset::dyn_place(words, a);
    node_list(w, words, work, add(d, 1), attrset::dyns(words, a));
    w.number_field(attrset::open(words, a));
    let o = attrset::open_place(words, a);
    key_list(w, words, add(o, 2), attrset::optionals(words, a));
}

// A tab and node y, by its number.
fn node_field(w: &mut Writer, work: &[u32], y: u32)
    ensures { Writes (Wrote (tab ∷ numbered work.now y)) w.old w.new }
{
    w.number_field(walk::number(work, y));
}

// What stands after the keyword of node x, with v for its variable, if it is one.
fn contents(w: &mut Writer, arena: &[u32], work: &[u32], x: u32, v: u32)
    ensures { Writes (WroteContents arena.now work.now x v) w.old w.new }
{
    let a = arena::word(arena, x, 1);
    let b = arena::word(arena, x, 2);
    match arena::kind(arena, x) {
        OutputTy::TyVar => w.number_field(v),
        OutputTy::Primitive => w.number_field(a),
        OutputTy::List | OutputTy::Neg => node_field(w, work, a),
        OutputTy::Lambda => {
            node_field(w, work, a);
            node_field(w, work, b);
        }
        OutputTy::Named => {
            w.number_field(a);
            node_field(w, work, b);
        }
        OutputTy::AttrSet => set_contents(w, arena, work, set_place(arena, x)),
        OutputTy::Union | OutputTy::Intersection => {
            node_list(w, arena, work, add(cells::at(arena, x), 2), a);
        }
        OutputTy::Bottom | OutputTy::Top => {}
    }
}

// What node x shows as its variable, if it is one: its own number, or how many variables stand before it (TypeArena::normalize_vars). Equal
// nodes are one, so that each `tyvar` line is another variable's.
fn shown_variable(arena: &[u32], form: Form, x: u32, before: u32) -> u32
    ensures { ShowsVariable arena.now form x before result }
{
    match form {
        Form::Plain => arena::word(arena, x, 1),
        Form::Numbered => before,
    }
}

// How many variables stand before the node after node k, if so many stand before node k.
fn variables_after(arena: &[u32], work: &[u32], k: u32, before: u32) -> u32
    ensures { CountsVariable arena.now work.now k before result }
{
    match arena::kind(arena, walk::node(work, k)) {
        OutputTy::TyVar => add(before, 1),
        _ => before,
    }
}

// The line of node k of the listing, before which so many variables stand: number, kind, contents.
fn node_line(w: &mut Writer, arena: &[u32], work: &[u32], form: Form, k: u32, before: u32)
    ensures { Writes (WroteNode arena.now work.now form k before) w.old w.new }
{
    let x = walk::node(work, k);
    w.decimal(k);
    w.byte(b'\t');
    w.keyword(&NODES, arena::kind(arena, x).number());
    contents(w, arena, work, x, shown_variable(arena, form, x, before));
    w.byte(b'\n');
}

fn node_lines(w: &mut Writer, arena: &[u32], work: &[u32], form: Form, n: u32)
    ensures { Writes (WroteNodes arena.now work.now form n) w.old w.new }
{
    let mut vars = 0;
    for k in 0..n {
        node_line(w, arena, work, form, k, vars);
        vars = variables_after(arena, work, k, vars);
    }
}

// The lines of a root that is not refused, with its nodes, children first. The first 12,288 cells of work may be used.
pub fn root_lines(
    w: &mut Writer,
    arena: &[u32],
    work: &mut [u32],
    form: Form,
    id: u32,
    sign: u32,
    s: Shown,
)
    ensures { Writes (WroteRoot arena.now work.old form id sign s) w.old w.new }
{
    let n = walk::walk(arena, work, s.node);
    root_line(w, id, sign, s, n);
    node_lines(w, arena, work, form, n);
}
