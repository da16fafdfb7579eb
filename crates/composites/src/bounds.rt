// expand_bounds after its visits.
ghost use Rattle.std.specs.Prelude.{Ok};
ghost use Rattle.rules.specs.declared.Polarity.TheVariants.{Negative};
ghost use Rattle.members.specs.Flow.{flow};
ghost use Rattle.members.specs.Listed.{listed};
ghost use Rattle.composites.specs.Settled.{settled};
ghost use Rattle.composites.specs.Places.{Normalizes};
ghost use Rattle.composites.specs.Lists.{SettlesMerged};

use crate::lists::{Ending, first_of, flattened, real_members, settle, settle_union};
use factor::factor_shared_from_intersection;
use lang_ty::arena;
use lang_ty::arena::{OutputTy, Pass};
use members::lists::Members;
use merge::merge_attrset_intersection;
use rules::{Polarity, Refusal};
use simplify::intersections;
use storage::given::Canon;

// expand_bounds, steps 4 and 5 in a negative place, once the sets are merged; first is the first member before filtering.
fn settle_merged(
    arena: &mut [u32],
    c: Canon,
    q: &mut Pass,
    merged: Members,
    first: Option<u32>,
) -> Result<Ending, Refusal>
    ensures { SettlesMerged c arena.old (listed (Ok merged) q.old) first arena.new (settled result q.new) }
{
    let m = intersections::remove_redundant_negations(arena, c.functor, merged);
    if intersections::has_type_contradiction(arena, c.functor, m) {
        let x = arena::store_leaf(arena, q, OutputTy::Bottom)?;
        return Ok(Ending::Node(x));
    }
    let f = factor_shared_from_intersection(arena, q, m)?;
    settle(arena, q, f, OutputTy::Intersection, false, first)
}

// The n answers held from h on in a negative place.
fn settle_intersection(
    table: &[u32],
    c: Canon,
    arena: &mut [u32],
    work: &mut [u32],
    h: u32,
    q: &mut Pass,
    n: u32,
    f: Result<(), Refusal>,
) -> Result<Ending, Refusal>
    ensures { Normalizes table.now c arena.old work.old h n (flow f q.old) Negative arena.new work.new (settled result q.new) }
{
    let all = flattened(arena, work, h, n, f, OutputTy::Intersection.number())?;
    let first = first_of(all);
    let m = real_members(table, c, arena, all);
    let merged = merge_attrset_intersection(arena, work, h, q, m)?;
    settle_merged(arena, c, q, merged, first)
}

// expand_bounds, steps 2 to 5: the n answers held from h on, flattened, without fillers, normalized and settled.
pub fn normalize(
    table: &[u32],
    c: Canon,
    arena: &mut [u32],
    work: &mut [u32],
    h: u32,
    q: &mut Pass,
    n: u32,
    f: Result<(), Refusal>,
    pol: Polarity,
) -> Result<Ending, Refusal>
    ensures { Normalizes table.now c arena.old work.old h n (flow f q.old) pol arena.new work.new (settled result q.new) }
{
    match pol {
        Polarity::Positive => settle_union(table, c, arena, work, h, q, n, f, pol),
        Polarity::Negative => settle_intersection(table, c, arena, work, h, q, n, f),
    }
}
