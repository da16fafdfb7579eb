// The rows of an old and a new table compared.
#![tactic(auto)]

ghost use Rattle.compare.specs.Compares.{SameCells, SameSpans, SameRow, SameWords, SameRows, SameCounts, Comparable};

use cells::{add, at, get, place};
use layout::TableSlice;
use prepare::{budget, first_mark, first_pair, first_root, number};
use table::Table;

// Whether the n cells of s from a on are those of w from b on.
fn same_cells(s: &[u32], a: u32, w: &[u32], b: u32, n: u32) -> bool
    ensures { SameCells s.now a w.now b n result }
{
    (0..n).all(|i| get(s, place(a, i)) == get(w, place(b, i)))
}

// Whether the cells of s from a up to e are those of w from b up to f.
fn same_spans(s: &[u32], a: u32, e: u32, w: &[u32], b: u32, f: u32) -> bool
    ensures { SameSpans s.now a e w.now b f result }
{
    let n = e.saturating_sub(a);
    n == f.saturating_sub(b) && same_cells(s, a, w, b, n)
}

// Whether the row whose beginning is told at p is the same in both tables.
pub fn same_row(old: &[u32], table: &[u32], p: u32) -> bool
    ensures { SameRow old.now table.now p result }
{
    let e = get(old, place(p, 1));
    let f = get(table, place(p, 1));
    same_spans(old, at(old, p), e, table, at(table, p), f)
}

// The same, but for the number of its kind.
fn same_words(old: &[u32], table: &[u32], p: u32) -> bool
    ensures { SameWords old.now table.now p result }
{
    let a = add(at(old, p), 1);
    let b = add(at(table, p), 1);
    same_spans(
        old,
        a,
        get(old, place(p, 1)),
        table,
        b,
        get(table, place(p, 1)),
    )
}

// Whether the n rows whose beginnings are told from p on are the same in both tables. They are of one kind.
fn same_rows(old: &[u32], table: &[u32], p: u32, n: u32) -> bool
    ensures { SameRows old.now table.now p n result }
{
    (0..n).all(|i| same_words(old, table, add(p, i)))
}

// Whether both tables have as many lines of each kind.
fn same_counts(u: Table, t: Table) -> bool
    ensures { SameCounts u t result }
{
    u.names == t.names
        && u.entries == t.entries
        && u.pairs == t.pairs
        && u.marks == t.marks
        && u.roots == t.roots
}

// Whether nothing of "budget, n, or a name, pair, mark or root line differs".
pub fn comparable(old: &[u32], u: Table, table: &[u32], t: Table) -> bool
    ensures { Comparable old.now u table.now t result }
{
    same_counts(u, t)
        && budget(old) == budget(table)
        && same_rows(old, table, TableSlice::ROWS + 1, number(t.names))
        && same_rows(old, table, first_pair(t), number(t.pairs))
        && same_rows(old, table, first_mark(t), number(t.marks))
        && same_rows(old, table, first_root(t), number(t.roots))
}
