// The cells of a row: one of them, some in order or in range, and where the parts of a set stand.
ghost use Rattle.std.specs.Prelude.{◌≤◌};
ghost use Rattle.table.specs.Rows.{most_lines, Begin, At, Steps, Ascend, Below, Before, Present, Placed};

use layout::TableSlice;

// The place of the table's slice where row i begins, and the row before it ends.
pub fn begin(table: &[u32], i: usize) -> u32
    requires { i ≤ most_lines }
    ensures { Begin table.now i result }
{
    cells::get(table, TableSlice::ROWS as usize + i)
}

// What stands at place k of the row between from and to; 0 past its end.
pub fn at(words: &[u32], from: usize, to: usize, k: usize) -> u32
    ensures { At words.now from to k result }
{
    if to.saturating_sub(from) <= k {
        return 0;
    }
    cells::get(words, from + k)
}

// Whether n cells of a row ascend: those at a and on, step by step.
pub fn ascend(words: &[u32], from: usize, to: usize, a: usize, step: usize, n: usize) -> bool
    requires { Steps a step n }
    ensures { Ascend words.now from to a step n result }
{
    let mut p = a;
    for i in 1..n {
        let x = at(words, from, to, p);
        p += step;
        let y = at(words, from, to, p);
        if y <= x {
            return false;
        }
    }
    true
}

// Whether n cells of a row, those at a and on, step by step, are below limit.
pub fn below(
    words: &[u32],
    from: usize,
    to: usize,
    a: usize,
    step: usize,
    n: usize,
    limit: usize,
) -> bool
    requires { Steps a step n }
    ensures { Below words.now from to a step n limit result }
{
    let mut p = a;
    for i in 0..n {
        let x = at(words, from, to, p) as usize;
        if limit <= x {
            return false;
        }
        p += step;
    }
    true
}

// Whether the cells from a to m come before those from b to t: the first difference decides, a prefix comes first.
pub fn before(words: &[u32], a: usize, m: usize, b: usize, t: usize) -> bool
    ensures { Before words.now a m b t result }
{
    let mut i = a;
    let mut k = b;
    while i < m {
        if t <= k {
            return false;
        }
        let x = cells::get(words, i);
        let y = cells::get(words, k);
        if x != y {
            return x < y;
        }
        i += 1;
        k += 1;
    }
    k < t
}

// Where the parts of a set's row stand, and how long its lists are; its dyn is a list of at most one.
#[derive(Clone, Copy)]
pub struct Places {
    pub fields: usize,
    pub dynamic: usize,
    pub held: usize,
    pub opens: usize,
    pub optional: usize,
}

// 0 of 0, and 1 of any other number.
fn present(x: usize) -> usize
    ensures { Present x result }
{
    x.min(1)
}

// The places of the set whose row stands between from and to.
pub fn places_of(words: &[u32], from: usize, to: usize) -> Places
    ensures { Placed words.now from to result }
{
    let fields = at(words, from, to, 1) as usize;
    let dynamic = 2 + 2 * fields;
    let dyns = at(words, from, to, dynamic) as usize;
    let opens = dynamic + 1 + dyns;
    let optional = at(words, from, to, opens + 1) as usize;
    let held = present(dyns);
    Places {
        fields,
        dynamic,
        held,
        opens,
        optional,
    }
}
