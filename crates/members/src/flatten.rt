// Flattening of nested unions and intersections.
ghost use Rattle.lang_ty.specs.Nodes.{Is};
ghost use Rattle.rules.specs.Members.{flatten_composite};
ghost use Rattle.members.specs.Lists.{Tests, any_of_kind};
ghost use Rattle.members.specs.Flattens.{AddsNew, AddsMembers, FlattensOne, Spreads, flatten_all};

use crate::lists::{Members, contains};
use cells::{at, set};
use lang_ty::arena;
use lang_ty::arena::Pass;

// x put after the first k cells of out, unless it is among them; how many there are then. Past 128 nothing is added.
fn add_new(out: &mut [u32], k: u32, x: u32) -> u32
    ensures { AddsNew out.old k x out.new result }
{
    if Pass::MEMBERS < k {
        return k;
    }
    if contains(out, k, x) {
        return k;
    }
    set(out, k, x);
    k + 1
}

fn add_members(arena: &[u32], out: &mut [u32], k: u32, x: u32) -> u32
    ensures { AddsMembers arena.now out.old k x out.new result }
{
    let n = arena::count(arena, x);
    let mut got = k;
    for i in 0..n {
        got = add_new(out, got, arena::member(arena, x, i));
    }
    got
}

// Whether the kind of x has that number; numbers that no kind has are taken too, so not by `arena::is`.
fn is_of(arena: &[u32], kind: u32, x: u32) -> bool
    ensures { Is arena.now kind x result }
{
    arena::word(arena, x, 0) == kind
}

fn any_is_of(arena: &[u32], m: Members, kind: u32) -> bool
    ensures { Tests (any_of_kind kind) arena.now m result }
{
    m.any_from(0, |x| is_of(arena, kind, x))
}

// The members of x where it nests, x itself where it does not; none twice.
fn flatten_one(arena: &[u32], out: &mut [u32], k: u32, x: u32, kind: u32) -> u32
    ensures { FlattensOne kind arena.now out.old k x out.new result }
{
    if is_of(arena, kind, x) {
        return add_members(arena, out, k, x);
    }
    add_new(out, k, x)
}

// The members of the members of that kind, and the others, none twice.
fn flatten_all(arena: &[u32], m: Members, kind: u32) -> Members
    ensures { Spreads (flatten_all kind) arena.now m result }
{
    let ms = m.at;
    let n = m.count;
    let mut out = [0u32; 128];
    let mut k = 0;
    for i in 0..n {
        let x = at(&ms, i);
        k = flatten_one(arena, &mut out, k, x, kind);
    }
    Members { count: k, at: out }
}

// flatten_composite, one level deep: more than 64 members of which none nests stay as they are.
pub fn flatten_composite(arena: &[u32], m: Members, kind: u32) -> Members
    ensures { Spreads (flatten_composite kind) arena.now m result }
{
    let n = m.count;
    if n <= 64 || any_is_of(arena, m, kind) {
        return flatten_all(arena, m, kind);
    }
    m
}
