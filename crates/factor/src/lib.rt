// Factoring: members that all unions of an intersection share come out of it.
#![tactic(auto)]

ghost use Rattle.std.specs.Prelude.{◌<◌, Ok};
ghost use Rattle.lang_ty.specs.Nodes.{code};
ghost use Rattle.members.specs.AtMostOne.{at_most_one};
ghost use Rattle.members.specs.Grown.{grown};
ghost use Rattle.members.specs.Listed.{listed};
ghost use Rattle.rules.specs.Members.{factor_shared_from_intersection};
ghost use Rattle.rules.specs.Order.{sort};
ghost use Rattle.members.specs.Lists.{Makes, Tests, Runs, Asks, Pairs};
ghost use Rattle.factor.specs.Factors.{has_member, in_others, shared_by, not_among, Picks, Remains, Leaves, behind, Probed, Halved, Placed, PutIn, Inserts, Marked, SolesAny};
ghost use Rattle.factor.specs.Factors.{FactorsParts, FactorsRests, FactorsUnions, FactorsOne};

use cells::{at, set};
use lang_ty::arena::{OutputTy, Pass};
use lang_ty::{arc_ty, arena};
use members::lists::{Members, contains, grow, joined, members_of, of_at_most_one, of_kind, sole};
use rules::Refusal;
use std::cmp::Ordering;

// Whether every union of the list but the first has the member x.
fn in_all_others(arena: &[u32], unions: &Members, x: u32) -> bool
    ensures { Tests (in_others x) arena.now unions.now result }
{
    !unions.any_from(1, |u| !has_member(arena, u, x))
}

fn has_member(arena: &[u32], u: u32, x: u32) -> bool
    ensures { Asks (has_member x) arena.now u result }
{
    let n = arena::count(arena, u);
    for i in 0..n {
        if arena::member(arena, u, i) == x {
            return true;
        }
    }
    false
}

// The members of union u that all unions but the first have.
fn shared_members(arena: &[u32], unions: &Members, u: u32) -> Members
    ensures { Picks shared_by arena.now unions.now.at unions.now.count u result }
{
    members_of(arena, u).sift(|x| in_all_others(arena, unions, x))
}

// The members of union u that are not shared.
fn unshared_members(arena: &[u32], shared: &Members, u: u32) -> Members
    ensures { Picks not_among arena.now shared.now.at shared.now.count u result }
{
    members_of(arena, u).sift(|x| !contains(&shared.at, shared.count, x))
}

// What is left of union u without the shared members, put after the first k cells of out; how many there are then.
fn remainder(
    arena: &mut [u32],
    q: &mut Pass,
    shared: &Members,
    u: u32,
    out: &mut [u32],
    k: u32,
) -> Result<u32, Refusal>
    ensures { Remains arena.old q.old shared.now.at shared.now.count u out.old k arena.new out.new (grown result q.new) }
{
    let rest = unshared_members(arena, shared, u);
    let part = sole(arena, q, OutputTy::Union, rest);
    grow(out, k, part)
}

// Each union without the shared members.
fn remainders(
    arena: &mut [u32],
    q: &mut Pass,
    shared: &Members,
    unions: &Members,
) -> Result<Members, Refusal>
    ensures { Leaves arena.old q.old shared.now unions.now arena.new (listed result q.new) }
{
    let mut out = [0u32; 128];
    let mut k = 0;
    for i in 0..unions.count {
        k = remainder(arena, q, shared, at(&unions.at, i), &mut out, k)?;
    }
    Ok(Members { count: k, at: out })
}

// Whether node y comes after node x in the order of nodes.
fn is_behind(arena: &[u32], y: u32, x: u32) -> bool
    ensures { Pairs behind arena.now y x result }
{
    match arc_ty::compare(arena, y, x) {
        Ordering::Less | Ordering::Equal => false,
        Ordering::Greater => true,
    }
}

// The cells from low on, up to high.
#[derive(Clone, Copy)]
struct Span {
    low: u32,
    high: u32,
}

// The cell of the span that x is compared with: of all n the last, since members are often in order, and then the middle.
fn probed(span: Span, n: u32) -> u32
    requires { span.low < span.high }
    ensures { Probed span result }
{
    let low = span.low;
    let high = span.high;
    if high == n {
        return high - 1;
    }
    low + (high - low) / 2
}

// The part of the span where x goes: before the cell that it is compared with if that is greater, else behind it.
fn halved(arena: &[u32], s: &[u32], n: u32, span: Span, x: u32) -> Span
    requires { span.low < span.high }
    ensures { Halved arena.now s.now span x result }
{
    let low = span.low;
    let high = span.high;
    let mid = probed(span, n);
    if is_behind(arena, at(s, mid), x) {
        return Span { low, high: mid };
    }
    Span { low: mid + 1, high }
}

// Where x goes among the first n cells of s, which are in order: before the first that is greater.
fn place_of(arena: &[u32], s: &[u32], n: u32, x: u32) -> u32
    ensures { Placed arena.now s.now n x result }
{
    let mut span = Span { low: 0, high: n };
    while span.low < span.high {
        span = halved(arena, s, n, span, x);
    }
    span.low
}

// x put before cell i of the first n cells of s, those from i on moved up by one.
fn put_in(s: &mut [u32], i: u32, n: u32, x: u32)
    ensures { PutIn s.old i n x s.new }
{
    let mut v = x;
    let mut j = i;
    while j < n {
        let y = at(s, j);
        set(s, j, v);
        v = y;
        j += 1;
    }
    set(s, j, v);
}

// x put into the first n cells of s, which are in order, after all that are not greater.
fn insert(arena: &[u32], s: &mut [u32], n: u32, x: u32)
    ensures { Inserts arena.now s.old n x s.new }
{
    let i = place_of(arena, s, n, x);
    put_in(s, i, n, x);
}

// The shared members in the order of nodes.
fn sort(arena: &[u32], m: Members) -> Members
    ensures { Makes sort arena.now m result }
{
    let ms = m.at;
    let n = m.count;
    let mut out = [0u32; 128];
    for i in 0..n {
        insert(arena, &mut out, i, at(&ms, i));
    }
    Members { count: n, at: out }
}

// The sorted mark where two members or more are shared.
fn mark_sorted(q: &mut Pass, n: u32)
    ensures { Marked q.old n q.new }
{
    if 2 <= n {
        q.sorted = true;
    }
}

// `sole` of a list that may be more than fit: a refusal then.
fn sole_of_any(
    arena: &mut [u32],
    q: &mut Pass,
    kind: OutputTy,
    m: Members,
) -> Result<Option<u32>, Refusal>
    ensures { SolesAny (code kind) arena.old q.old m arena.new (at_most_one result q.new) }
{
    if Pass::MEMBERS < m.count {
        return Err(Refusal::Members);
    }
    sole(arena, q, kind, m)
}

// The shared members beside the intersection of the parts.
fn factored(
    arena: &mut [u32],
    q: &mut Pass,
    shared: Members,
    parts: Members,
) -> Result<Members, Refusal>
    ensures { FactorsParts arena.old q.old shared parts arena.new (listed result q.new) }
{
    let inner = sole_of_any(arena, q, OutputTy::Intersection, parts)?;
    let all = joined(shared, of_at_most_one(inner));
    let whole = sole_of_any(arena, q, OutputTy::Union, all)?;
    Ok(of_at_most_one(whole))
}

// The shared members in order beside what is left of the unions and the other members.
fn factor_rests(
    arena: &mut [u32],
    q: &mut Pass,
    rests: Members,
    shared: Members,
    others: Members,
) -> Result<Members, Refusal>
    ensures { FactorsRests arena.old (listed (Ok rests) q.old) shared others arena.new (listed result q.new) }
{
    let inorder = sort(arena, shared);
    let parts = joined(rests, others);
    mark_sorted(q, inorder.count);
    factored(arena, q, inorder, parts)
}

// factor_shared_from_intersection with two unions or more.
fn factor_unions(
    arena: &mut [u32],
    q: &mut Pass,
    others: Members,
    unions: Members,
) -> Result<Members, Refusal>
    ensures { FactorsUnions arena.old q.old others unions arena.new (listed result q.new) }
{
    let shared = shared_members(arena, &unions, unions.at[0]);
    if shared.count == 0 {
        return Ok(joined(others, unions));
    }
    let rests = remainders(arena, q, &shared, &unions)?;
    factor_rests(arena, q, rests, shared, others)
}

// A sole union goes last, and one of one member is unwrapped. It is stored again, which gives its own number.
fn factor_one(arena: &mut [u32], q: &mut Pass, others: Members, u: u32) -> Result<Members, Refusal>
    ensures { FactorsOne arena.old q.old others u arena.new (listed result q.new) }
{
    let whole = members_of(arena, u);
    let last = sole(arena, q, OutputTy::Union, whole)?;
    Ok(joined(others, of_at_most_one(last)))
}

// factor_shared_from_intersection
pub fn factor_shared_from_intersection(
    arena: &mut [u32],
    q: &mut Pass,
    m: Members,
) -> Result<Members, Refusal>
    ensures { Runs factor_shared_from_intersection arena.old q.old m arena.new (listed result q.new) }
{
    let unions = of_kind(arena, m, OutputTy::Union, true);
    let others = of_kind(arena, m, OutputTy::Union, false);
    match unions.count {
        0 => Ok(others),
        1 => factor_one(arena, q, others, unions.at[0]),
        _ => factor_unions(arena, q, others, unions),
    }
}
