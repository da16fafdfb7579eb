// Unions and intersections of canonicalize_concrete, once their members are visited.
ghost use Rattle.std.specs.Prelude.{Ok};
ghost use Rattle.lang_ty.specs.Given.{given};
ghost use Rattle.members.specs.Flow.{flow};
ghost use Rattle.members.specs.Listed.{listed};
ghost use Rattle.composites.specs.Tried.{tried};
ghost use Rattle.composites.specs.Places.{UnionOf, TriesInter};
ghost use Rattle.composites.specs.Lists.{NormalizesInter, SettlesInter, RestsInter, TriesMembers, FirstTried, ChecksInter};

use crate::lists::{
    first_of, flattened, or_first, real_members, settle, settle_union, top_if_emptied,
};
use factor::factor_shared_from_intersection;
use lang_ty::arena::{OutputTy, Pass};
use members::lists::Members;
use merge::merge_attrset_intersection;
use rules::{Polarity, Refusal};
use simplify::intersections::{
    has_type_contradiction, remove_redundant_negations, simplify_union_neg_intersection,
};
use simplify::unions;
use storage::given::Canon;

// Which try of an intersection: the first, or the second with the first member of the first.
#[derive(Clone, Copy)]
pub enum Try {
    First,
    Again(Option<u32>),
}

// What a try comes to: a node, or a contradiction with the first member of all.
#[derive(Clone, Copy)]
pub enum Outcome {
    Node(u32),
    Contradiction(Option<u32>),
}

// Ty::Union of the two answers held from h on.
pub fn union_of(
    table: &[u32],
    c: Canon,
    arena: &mut [u32],
    work: &[u32],
    h: u32,
    q: &mut Pass,
    pol: Polarity,
) -> Result<u32, Refusal>
    ensures { UnionOf table.now c arena.old work.now h q.old pol arena.new (given result q.new) }
{
    let e = settle_union(table, c, arena, work, h, q, 2, Ok(()), pol);
    or_first(arena, q, e)
}

// Ty::Inter, the normalization of a place.
fn inter_normalized(
    c: Canon,
    arena: &mut [u32],
    work: &mut [u32],
    h: u32,
    q: &mut Pass,
    m: Members,
    pol: Polarity,
) -> Result<Members, Refusal>
    ensures { NormalizesInter c arena.old work.old h q.old m pol arena.new work.new (listed result q.new) }
{
    match pol {
        Polarity::Positive => {
            let r = remove_redundant_negations(arena, c.functor, m);
            Ok(unions::remove_tautological_pairs(arena, r))
        }
        Polarity::Negative => {
            let l = merge_attrset_intersection(arena, work, h, q, m)?;
            Ok(remove_redundant_negations(arena, c.functor, l))
        }
    }
}

// The list of an intersection simplified, factored and settled; first is the first member of the first try.
fn inter_settled(
    c: Canon,
    arena: &mut [u32],
    q: &mut Pass,
    m: Members,
    cancelled: bool,
    first: Option<u32>,
) -> Result<u32, Refusal>
    ensures { SettlesInter c arena.old (listed (Ok m) q.old) cancelled first arena.new (given result q.new) }
{
    let s = simplify_union_neg_intersection(arena, c.functor, q, m)?;
    let f = factor_shared_from_intersection(arena, q, s)?;
    let e = settle(arena, q, f, OutputTy::Intersection, cancelled, first);
    or_first(arena, q, e)
}

// Ty::Inter, once its members do not contradict each other.
fn inter_rest(
    c: Canon,
    arena: &mut [u32],
    work: &mut [u32],
    h: u32,
    q: &mut Pass,
    m: Members,
    first: Option<u32>,
    pol: Polarity,
) -> Result<u32, Refusal>
    ensures { RestsInter c arena.old work.old h q.old m first pol arena.new work.new (given result q.new) }
{
    let cancelled = top_if_emptied(pol, m);
    let l = inter_normalized(c, arena, work, h, q, m, pol)?;
    inter_settled(c, arena, q, l, cancelled, first)
}

// The members of a try: the second's are simplified before they are tested.
fn tried_members(
    c: Canon,
    arena: &mut [u32],
    q: &mut Pass,
    m: Members,
    t: Try,
) -> Result<Members, Refusal>
    ensures { TriesMembers c arena.old (listed (Ok m) q.old) t arena.new (listed result q.new) }
{
    match t {
        Try::First => Ok(m),
        Try::Again(_) => simplify_union_neg_intersection(arena, c.functor, q, m),
    }
}

// The first member of the first try.
fn first_tried(t: Try, m: Members) -> Option<u32>
    ensures { FirstTried t m result }
{
    match t {
        Try::First => first_of(m),
        Try::Again(x) => x,
    }
}

// Ty::Inter with the members of a try, up to a contradiction.
fn inter_checked(
    c: Canon,
    arena: &mut [u32],
    work: &mut [u32],
    h: u32,
    q: &mut Pass,
    m: Members,
    first: Option<u32>,
    pol: Polarity,
) -> Result<Outcome, Refusal>
    ensures { ChecksInter c arena.old work.old h (listed (Ok m) q.old) first pol arena.new work.new (tried result q.new) }
{
    if has_type_contradiction(arena, c.functor, m) {
        return Ok(Outcome::Contradiction(first));
    }
    let x = inter_rest(c, arena, work, h, q, m, first, pol)?;
    Ok(Outcome::Node(x))
}

// Ty::Inter of the two answers held from h on, up to a contradiction.
pub fn inter_tried(
    table: &[u32],
    c: Canon,
    arena: &mut [u32],
    work: &mut [u32],
    h: u32,
    q: &mut Pass,
    f: Result<(), Refusal>,
    t: Try,
    pol: Polarity,
) -> Result<Outcome, Refusal>
    ensures { TriesInter table.now c arena.old work.old h (flow f q.old) t pol arena.new work.new (tried result q.new) }
{
    let all = flattened(arena, work, h, 2, f, OutputTy::Intersection.number())?;
    let first = first_tried(t, all);
    let found = real_members(table, c, arena, all);
    let m = tried_members(c, arena, q, found, t)?;
    inter_checked(c, arena, work, h, q, m, first, pol)
}
