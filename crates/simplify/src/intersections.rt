// What is done to the members of an intersection: redundant negations, contradictions, simplifying.
ghost use Rattle.rules.specs.Members.{remove_redundant_negations, all_same_non_primitive, disjoint_pair, subsumed_by_negation, has_type_contradiction};
ghost use Rattle.rules.specs.Members.{simplify_union_neg_intersection};
ghost use Rattle.members.specs.AtMostOne.{at_most_one};
ghost use Rattle.members.specs.Grown.{grown};
ghost use Rattle.members.specs.Listed.{listed};
ghost use Rattle.members.specs.Lists.{Makes, Tests, Runs};
ghost use Rattle.simplify.specs.Intersections.{Simplifies, SimplifiesInto, SimplifiesAll};

use crate::beside::{is_redundant, is_subsumed, spared, takes_some};
use cells::at;
use lang_ty::arena::{OutputTy, Pass};
use lang_ty::{arena, disjoint};
use members::lists::{Members, any_of_kind, grow, is_concrete, is_positive, of_kind, sole};
use rules::Refusal;

// remove_redundant_negations
pub fn remove_redundant_negations(arena: &[u32], functor: u32, m: Members) -> Members
    ensures { Makes (remove_redundant_negations functor) arena.now m result }
{
    if !m.any_from(0, |x| is_concrete(arena, x)) {
        return m;
    }
    m.sift(|x| !is_redundant(arena, functor, &m, x))
}

// All of one kind, and that not a primitive.
fn all_same_non_primitive(arena: &[u32], m: &Members) -> bool
    ensures { Tests all_same_non_primitive arena.now m.now result }
{
    if m.count == 0 {
        return true;
    }
    match arena::kind(arena, at(&m.at, 0)) {
        OutputTy::Primitive => false,
        k => !m.any_from(1, |y| !arena::is(arena, k, y)),
    }
}

// Each member is asked beside those after its place, so not by `any_from`, which shows the members alone.
fn any_disjoint_pair(arena: &[u32], functor: u32, m: &Members) -> bool
    ensures { Tests (disjoint_pair functor) arena.now m.now result }
{
    for i in 0..m.count {
        let x = at(&m.at, i);
        if m.any_from(
            i + 1,
            |y| disjoint::are_shapes_disjoint(arena, functor, x, y),
        ) {
            return true;
        }
    }
    false
}

// Whether a Neg among the members takes a positive one. The Negs are gathered, so that only these are scanned for each member.
fn any_subsumed(arena: &[u32], m: &Members) -> bool
    ensures { Tests subsumed_by_negation arena.now m.now result }
{
    if !any_of_kind(arena, *m, OutputTy::Neg) {
        return false;
    }
    let negs = of_kind(arena, *m, OutputTy::Neg, true);
    m.any_from(0, |x| is_subsumed(arena, &negs, x))
}

// has_type_contradiction
pub fn has_type_contradiction(arena: &[u32], functor: u32, m: Members) -> bool
    ensures { Tests (has_type_contradiction functor) arena.now m result }
{
    if any_subsumed(arena, &m) {
        return true;
    }
    let p = m.sift(|x| is_positive(arena, x));
    !all_same_non_primitive(arena, &p) && any_disjoint_pair(arena, functor, &p)
}

// What simplifying by the Negs among the members makes of x.
fn simplified(
    arena: &mut [u32],
    q: &mut Pass,
    negs: &Members,
    x: u32,
) -> Result<Option<u32>, Refusal>
    ensures { Simplifies arena.old q.old negs.now x arena.new (at_most_one result q.new) }
{
    if !arena::is(arena, OutputTy::Union, x) {
        return Ok(Some(x));
    }
    let m = spared(arena, &negs.at, negs.count, x);
    sole(arena, q, OutputTy::Union, m)
}

// The same, put after the first k cells of out.
fn simplify_one(
    arena: &mut [u32],
    q: &mut Pass,
    negs: &Members,
    x: u32,
    out: &mut [u32],
    k: u32,
) -> Result<u32, Refusal>
    ensures { SimplifiesInto arena.old q.old negs.now x out.old k arena.new out.new (grown result q.new) }
{
    let part = simplified(arena, q, negs, x);
    grow(out, k, part)
}

// Each of m simplified by those Negs.
fn simplify_each(
    arena: &mut [u32],
    q: &mut Pass,
    negs: &Members,
    m: &Members,
) -> Result<Members, Refusal>
    ensures { SimplifiesAll arena.old q.old negs.now m.now arena.new (listed result q.new) }
{
    let mut out = [0u32; 128];
    let mut k = 0;
    for i in 0..m.count {
        k = simplify_one(arena, q, negs, at(&m.at, i), &mut out, k)?;
    }
    Ok(Members { count: k, at: out })
}

// simplify_union_neg_intersection
pub fn simplify_union_neg_intersection(
    arena: &mut [u32],
    functor: u32,
    q: &mut Pass,
    m: Members,
) -> Result<Members, Refusal>
    ensures { Runs (simplify_union_neg_intersection functor) arena.old q.old m arena.new (listed result q.new) }
{
    if !any_of_kind(arena, m, OutputTy::Neg) {
        return Ok(m);
    }
    if !any_of_kind(arena, m, OutputTy::Union) {
        return Ok(remove_redundant_negations(arena, functor, m));
    }
    let negs = of_kind(arena, m, OutputTy::Neg, true);
    let changed = m.any_from(0, |x| takes_some(arena, &negs, x));
    let all = simplify_each(arena, q, &negs, &m)?;
    if !changed {
        return Ok(all);
    }
    let some = of_kind(arena, all, OutputTy::Bottom, false);
    Ok(remove_redundant_negations(arena, functor, some))
}
