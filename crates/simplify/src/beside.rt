// What is asked of a node beside the members.
ghost use Rattle.members.specs.Lists.{Beside};
ghost use Rattle.simplify.specs.Asked.{redundant, negated, subsumed, takes, Spares};

use crate::pairs::{is_negated_by, overlaps};
use cells::at;
use lang_ty::arena;
use lang_ty::arena::OutputTy;
use members::lists::{Members, is_positive, members_of};

// x is a Neg, and what it holds is disjoint from every member with a known constructor.
pub fn is_redundant(arena: &[u32], functor: u32, m: &Members, x: u32) -> bool
    ensures { Beside (redundant functor) arena.now m.now.at m.now.count x result }
{
    if !arena::is(arena, OutputTy::Neg, x) {
        return false;
    }
    let inner = arena::word(arena, x, 1);
    !m.any_from(0, |y| overlaps(arena, functor, inner, y))
}

// Whether a Neg among the first n cells of s holds x or a wider primitive.
fn is_negated(arena: &[u32], s: &[u32], n: u32, x: u32) -> bool
    ensures { Beside negated arena.now s.now n x result }
{
    for i in 0..n {
        if is_negated_by(arena, x, at(s, i)) {
            return true;
        }
    }
    false
}

// The members of x that no Neg among the first n cells of s takes.
pub fn spared(arena: &[u32], s: &[u32], n: u32, x: u32) -> Members
    ensures { Spares arena.now s.now n x result }
{
    members_of(arena, x).sift(|y| !is_negated(arena, s, n, y))
}

// x is positive, and a Neg among the members takes it.
pub fn is_subsumed(arena: &[u32], m: &Members, x: u32) -> bool
    ensures { Beside subsumed arena.now m.now.at m.now.count x result }
{
    is_positive(arena, x) && is_negated(arena, &m.at, m.count, x)
}

// x is a union, and a Neg among the members takes some member of it.
pub fn takes_some(arena: &[u32], m: &Members, x: u32) -> bool
    ensures { Beside takes arena.now m.now.at m.now.count x result }
{
    if !arena::is(arena, OutputTy::Union, x) {
        return false;
    }
    let some = spared(arena, &m.at, m.count, x);
    some.count < arena::count(arena, x)
}
