// The Canonicalizer of collect.rs.
ghost use Rattle.std.specs.Prelude.{Ok};
ghost use Rattle.lang_ty.specs.Given.{given};
ghost use Rattle.members.specs.Flow.{flow};
ghost use Rattle.composites.specs.Settled.{settled};
ghost use Rattle.composites.specs.Tried.{tried};
ghost use Rattle.lang_check.specs.RootAnswer.{root_answer};
ghost use Rattle.lang_check.specs.Cycle.{Visits, Rules, Children, Each, Inner, Gathered, Expands, FallsBackTo, Inters, Again, Retries, Either, Side, IsCut};
ghost use Rattle.lang_check.specs.Roots.{NoneCounted, OnePass, BothAt, BitsEnd, AnyBoth, PreservesIf, Detects, FirstShown, SecondShown, Canonicalizes};

use crate::made::{made, retried};
use cells::{add, at, get, place, put, set};
use composites::binary::{Outcome, Try};
use composites::lists::Ending;
use composites::{binary, bounds};
use lang_ty::arena;
use lang_ty::arena::{OutputTy, Pass, Shown};
use layout::{TableSlice, WorkSlice};
use rules::{Polarity, Refusal};
use storage::entries::Entry;
use storage::given::Canon;
use storage::notes::{Begun, PolarityBits};
use storage::{entries, held, notes, vars};

// Whether a fallback begins no list: there is none, or after the bail the chain began it before.
fn is_cut(n: u32, q: &Pass, begun: Begun, pol: Polarity) -> bool
    ensures { IsCut n q.now begun pol result }
{
    n == 0 || q.bailed && notes::began(begun, pol)
}

// The polarity in which the i-th of several ids is visited.
fn side(i: u32, first: Polarity, pol: Polarity) -> Polarity
    ensures { Side i first pol result }
{
    if i == 0 { first } else { pol }
}

// Whether one of two entries is a variable.
fn either_variable(table: &[u32], c: Canon, a: u32, b: u32) -> bool
    ensures { Either table.now c a b result }
{
    entries::is_variable(table, c, a) || entries::is_variable(table, c, b)
}

// canonicalize_child: the node of id in a place of that polarity, with as many free keys as free says; held from h on is free.
#[cycle(again_children_each_expand_fallback_gathered_inner_inter_retry_rule_visit)]
pub fn visit(
    table: &[u32],
    c: Canon,
    arena: &mut [u32],
    work: &mut [u32],
    free: u32,
    h: u32,
    q: &mut Pass,
    id: u32,
    pol: Polarity,
) -> Result<u32, Refusal>
    ensures { Visits table.now c arena.old work.old free h q.old id pol arena.new work.new (given result q.new) }
{
    if q.bailed {
        return vars::variable(table, c, arena, q, id);
    }
    notes::count_one(q);
    if notes::exceeds(c, q) {
        notes::bail(q);
        return vars::variable(table, c, arena, q, id);
    }
    let s = notes::slot(id, pol);
    let k = at(work, s);
    if k == 1 {
        return vars::variable(table, c, arena, q, id);
    }
    if 1 < k {
        return Ok(k - 2);
    }
    if free == 0 {
        return Err(Refusal::Keys);
    }
    set(work, s, 1);
    let x = rule(table, c, arena, work, free - 1, h, q, id, pol)?;
    set(work, s, add(x, 2));
    Ok(x)
}

// canonicalize_inner for a variable, canonicalize_concrete for the others.
#[cycle(again_children_each_expand_fallback_gathered_inner_inter_retry_rule_visit)]
fn rule(
    table: &[u32],
    c: Canon,
    arena: &mut [u32],
    work: &mut [u32],
    free: u32,
    h: u32,
    q: &mut Pass,
    id: u32,
    pol: Polarity,
) -> Result<u32, Refusal>
    ensures { Rules table.now c arena.old work.old free h q.old id pol arena.new work.new (given result q.new) }
{
    let e = entries::entry_at(table, c, id);
    match e {
        Entry::Variable(v) => inner(table, c, arena, work, free, h, q, id, v, pol),
        Entry::Inter(a, b) => inter(table, c, arena, work, free, h, q, a, b, pol),
        _ => {
            children(table, c, arena, work, free, h, q, e, pol)?;
            made(table, c, arena, work, h, q, e, pol)
        }
    }
}

// The children of such an entry, held from h on and replaced by their answers.
#[cycle(again_children_each_expand_fallback_gathered_inner_inter_retry_rule_visit)]
fn children(
    table: &[u32],
    c: Canon,
    arena: &mut [u32],
    work: &mut [u32],
    free: u32,
    h: u32,
    q: &mut Pass,
    e: Entry,
    pol: Polarity,
) -> Result<(), Refusal>
    ensures { Children table.now c arena.old work.old free h q.old e pol arena.new work.new (flow result q.new) }
{
    let n = held::hold_children(table, work, h, e);
    each(
        table,
        c,
        arena,
        work,
        free,
        h,
        q,
        n,
        held::first_polarity(e, pol),
        pol,
    )
}

// canonicalize_inner for the variable id, whose bounds stand at v: a Named bound replaces it before its polarity is noted.
#[cycle(again_children_each_expand_fallback_gathered_inner_inter_retry_rule_visit)]
fn inner(
    table: &[u32],
    c: Canon,
    arena: &mut [u32],
    work: &mut [u32],
    free: u32,
    h: u32,
    q: &mut Pass,
    id: u32,
    v: u32,
    pol: Polarity,
) -> Result<u32, Refusal>
    ensures { Inner table.now c arena.old work.old free h q.old id v pol arena.new work.new (given result q.new) }
{
    if let Some(b) = entries::named_bound(table, c, v) {
        return visit(table, c, arena, work, free, h, q, b, pol);
    }
    notes::note(table, c, work, id, pol);
    let Some(own) = held::own_bounds(table, c, work, h, id, v, pol) else {
        return vars::variable(table, c, arena, q, id);
    };
    let begun = notes::none_begun();
    let g = expand(
        table,
        c,
        arena,
        work,
        free,
        h,
        q,
        Canon::CHAIN,
        begun,
        own.count,
        id,
        pol,
    );
    vars::expanded(table, c, arena, q, g, id, pol, own.kept)
}

// expand_bounds of the n bounds held from h on, but for its fallback.
#[cycle(again_children_each_expand_fallback_gathered_inner_inter_retry_rule_visit)]
fn gathered(
    table: &[u32],
    c: Canon,
    arena: &mut [u32],
    work: &mut [u32],
    free: u32,
    h: u32,
    q: &mut Pass,
    n: u32,
    pol: Polarity,
) -> Result<Ending, Refusal>
    ensures { Gathered table.now c arena.old work.old free h q.old n pol arena.new work.new (settled result q.new) }
{
    let m = held::deduplicated(work, h, n);
    let f = each(table, c, arena, work, free, h, q, m, pol, pol);
    bounds::normalize(table, c, arena, work, h, q, m, f, pol)
}

// expand_bounds of the n bounds held from h on, for the variable id; chain is how many fallbacks may still begin.
#[cycle(again_children_each_expand_fallback_gathered_inner_inter_retry_rule_visit)]
fn expand(
    table: &[u32],
    c: Canon,
    arena: &mut [u32],
    work: &mut [u32],
    free: u32,
    h: u32,
    q: &mut Pass,
    chain: u32,
    begun: Begun,
    n: u32,
    id: u32,
    pol: Polarity,
) -> Result<u32, Refusal>
    ensures { Expands table.now c arena.old work.old free h q.old chain begun n id pol arena.new work.new (given result q.new) }
{
    let e = gathered(table, c, arena, work, free, h, q, n, pol)?;
    match e {
        Ending::Node(x) => Ok(x),
        Ending::Empty(_) => { fallback(table, c, arena, work, free, h, q, chain, begun, id, pol) }
    }
}

// expand_bounds_empty_fallback
#[cycle(again_children_each_expand_fallback_gathered_inner_inter_retry_rule_visit)]
fn fallback(
    table: &[u32],
    c: Canon,
    arena: &mut [u32],
    work: &mut [u32],
    free: u32,
    h: u32,
    q: &mut Pass,
    chain: u32,
    begun: Begun,
    id: u32,
    pol: Polarity,
) -> Result<u32, Refusal>
    ensures { FallsBackTo table.now c arena.old work.old free h q.old chain begun id pol arena.new work.new (given result q.new) }
{
    if chain == 0 {
        return vars::variable(table, c, arena, q, id);
    }
    let n = held::begin_list(table, c, work, h, id, pol);
    if is_cut(n, q, begun, pol) {
        return vars::variable(table, c, arena, q, id);
    }
    let next = notes::begin(begun, pol, q.bailed);
    expand(
        table,
        c,
        arena,
        work,
        free,
        h,
        q,
        chain - 1,
        next,
        n,
        id,
        pol.flip(),
    )
}

// The n ids held from h on, each replaced by its answer: the first in a polarity of its own, the others in that of the place.
#[cycle(again_children_each_expand_fallback_gathered_inner_inter_retry_rule_visit)]
fn each(
    table: &[u32],
    c: Canon,
    arena: &mut [u32],
    work: &mut [u32],
    free: u32,
    h: u32,
    q: &mut Pass,
    n: u32,
    first: Polarity,
    pol: Polarity,
) -> Result<(), Refusal>
    ensures { Each table.now c arena.old work.old free h q.old n first pol arena.new work.new (flow result q.new) }
{
    for i in 0..n {
        let b = get(work, place(h, i));
        let x = visit(
            table,
            c,
            arena,
            work,
            free,
            add(h, n),
            q,
            b,
            side(i, first, pol),
        )?;
        put(work, place(h, i), x);
    }
    Ok(())
}

// Ty::Inter
#[cycle(again_children_each_expand_fallback_gathered_inner_inter_retry_rule_visit)]
fn inter(
    table: &[u32],
    c: Canon,
    arena: &mut [u32],
    work: &mut [u32],
    free: u32,
    h: u32,
    q: &mut Pass,
    a: u32,
    b: u32,
    pol: Polarity,
) -> Result<u32, Refusal>
    ensures { Inters table.now c arena.old work.old free h q.old a b pol arena.new work.new (given result q.new) }
{
    let n = held::hold_two(work, h, a, b);
    let f = each(table, c, arena, work, free, h, q, n, pol, pol);
    let t = binary::inter_tried(table, c, arena, work, h, q, f, Try::First, pol)?;
    again(table, c, arena, work, free, h, q, t, a, b, pol)
}

// A contradiction with a variable among the members is tried again; without one it is Bottom.
#[cycle(again_children_each_expand_fallback_gathered_inner_inter_retry_rule_visit)]
fn again(
    table: &[u32],
    c: Canon,
    arena: &mut [u32],
    work: &mut [u32],
    free: u32,
    h: u32,
    q: &mut Pass,
    t: Outcome,
    a: u32,
    b: u32,
    pol: Polarity,
) -> Result<u32, Refusal>
    ensures { Again table.now c arena.old work.old free h (tried (Ok t) q.old) a b pol arena.new work.new (given result q.new) }
{
    match t {
        Outcome::Node(x) => Ok(x),
        Outcome::Contradiction(y) => {
            if !either_variable(table, c, a, b) {
                return arena::store_leaf(arena, q, OutputTy::Bottom);
            }
            retry(table, c, arena, work, free, h, q, y, a, b, pol)
        }
    }
}

// The retry, a variable in the other polarity; y is the first member of the first try.
#[cycle(again_children_each_expand_fallback_gathered_inner_inter_retry_rule_visit)]
fn retry(
    table: &[u32],
    c: Canon,
    arena: &mut [u32],
    work: &mut [u32],
    free: u32,
    h: u32,
    q: &mut Pass,
    y: Option<u32>,
    a: u32,
    b: u32,
    pol: Polarity,
) -> Result<u32, Refusal>
    ensures { Retries table.now c arena.old work.old free h q.old y a b pol arena.new work.new (given result q.new) }
{
    let n = held::hold_two(work, h, a, b);
    let pa = entries::turned(table, c, a, pol);
    let pb = entries::turned(table, c, b, pol);
    let f = each(table, c, arena, work, free, h, q, n, pa, pb);
    let t = binary::inter_tried(table, c, arena, work, h, q, f, Try::Again(y), pol)?;
    retried(arena, q, t)
}

// A pass from nothing: its own arena, keys and bits, and no id marked as seen.
fn one_pass(
    table: &[u32],
    c: Canon,
    arena: &mut [u32],
    work: &mut [u32],
    q: &mut Pass,
    id: u32,
    pol: Polarity,
) -> Result<u32, Refusal>
    ensures { OnePass table.now c arena.old work.old id pol arena.new work.new (given result q.new) }
{
    *q = none_counted();
    cells::clear(work, 0, add(c.count, c.count));
    cells::clear(work, WorkSlice::BITS, c.count);
    cells::clear(work, WorkSlice::SEEN, c.count);
    arena::fresh(arena);
    visit(
        table,
        c,
        arena,
        work,
        Canon::KEYS,
        WorkSlice::HELD,
        q,
        id,
        pol,
    )
}

// Whether id was seen in both polarities.
fn both_at(work: &[u32], id: u32) -> bool
    ensures { BothAt work.now id result }
{
    let b = PolarityBits {
        bits: get(work, place(WorkSlice::BITS, id)),
    };
    b.is_both()
}

// Where the bits of count ids end, or the slice.
fn bits_end(work: &[u32], count: u32) -> usize
    ensures { BitsEnd work.now count result }
{
    let e = place(WorkSlice::BITS, count);
    if e < work.len() {
        return e;
    }
    work.len()
}

// Whether any id was seen in both polarities: mostly none was, and then nothing else is looked at. All bits are read, without a way out of the loop,
// so that several are compared at once.
fn any_both(work: &[u32], count: u32) -> bool
    ensures { AnyBoth work.now count result }
{
    let e = bits_end(work, count);
    let mut any = false;
    for i in WorkSlice::BITS as usize..e {
        let b = PolarityBits { bits: work[i] };
        any |= b.is_both();
    }
    any
}

// An id seen in both polarities is preserved.
fn preserve_if_both(table: &mut [u32], work: &[u32], id: u32)
    ensures { PreservesIf table.old work.now id table.new }
{
    if both_at(work, id) {
        put(table, place(TableSlice::PRESERVED, id), 1);
    }
}

// The variables seen in both polarities become the set that a pass preserves; whether there are any.
fn detected_cooccurring(table: &mut [u32], work: &[u32], count: u32) -> bool
    ensures { Detects table.old work.now count table.new result }
{
    if !any_both(work, count) {
        return false;
    }
    for i in 0..count {
        preserve_if_both(table, work, i);
    }
    true
}

// The answer of the first pass.
fn first_shown(g: Result<u32, Refusal>, q: &Pass) -> Result<Shown, Refusal>
    ensures { FirstShown (given g q.now) (root_answer result) }
{
    match g {
        Ok(x) => Ok(Shown {
            passes: 1,
            ops: q.ops,
            sorted: q.sorted,
            bailed: q.bailed,
            node: x,
        }),
        Err(k) => Err(k),
    }
}

// The answer of the second pass, with what the first one counted and marked.
fn second_shown(g: Result<u32, Refusal>, q: &Pass, first: Shown) -> Result<Shown, Refusal>
    ensures { SecondShown (given g q.now) first.ops first.sorted first.bailed (root_answer result) }
{
    match g {
        Ok(x) => Ok(Shown {
            passes: 2,
            ops: add(first.ops, q.ops),
            sorted: first.sorted || q.sorted,
            bailed: first.bailed || q.bailed,
            node: x,
        }),
        Err(k) => Err(k),
    }
}

// canonicalize_standalone_with_deadline: if any representative was seen in both polarities, a second pass runs with that set.
pub fn canonicalize(
    table: &mut [u32],
    c: Canon,
    arena: &mut [u32],
    work: &mut [u32],
    id: u32,
    pol: Polarity,
) -> Result<Shown, Refusal>
    ensures { Canonicalizes table.old c arena.old work.old id pol table.new arena.new work.new (root_answer result) }
{
    let mut q = none_counted();
    let g = one_pass(table, c, arena, work, &mut q, id, pol);
    let first = first_shown(g, &q);
    let Ok(s) = first else {
        return first;
    };
    if !detected_cooccurring(table, work, c.count) {
        return first;
    }
    let d = Canon { spent: s.ops, ..c };
    let h = one_pass(table, d, arena, work, &mut q, id, pol);
    cells::clear(table, TableSlice::PRESERVED, c.count);
    second_shown(h, &q, s)
}

fn none_counted() -> Pass
    ensures { NoneCounted result }
{
    Pass {
        nodes: 0,
        cells: 0,
        ops: 0,
        sorted: false,
        bailed: false,
    }
}
