// What is asked of two nodes.
ghost use Rattle.rules.specs.Members.{is_output_subtype_or_equal};
ghost use Rattle.members.specs.Lists.{Pairs};
ghost use Rattle.simplify.specs.Asked.{overlap, negated_by, negates};

use lang_ty::arena::OutputTy;
use lang_ty::{arena, disjoint, primitive};
use members::lists::is_concrete;

// Whether y has a known constructor and is not disjoint from x.
pub fn overlaps(arena: &[u32], functor: u32, x: u32, y: u32) -> bool
    ensures { Pairs (overlap functor) arena.now x y result }
{
    is_concrete(arena, y) && !disjoint::are_shapes_disjoint(arena, functor, y, x)
}

// is_output_subtype_or_equal
fn is_output_subtype_or_equal(arena: &[u32], a: u32, b: u32) -> bool
    ensures { Pairs is_output_subtype_or_equal arena.now a b result }
{
    if a == b {
        return true;
    }
    if !arena::is(arena, OutputTy::Primitive, a) || !arena::is(arena, OutputTy::Primitive, b) {
        return false;
    }
    primitive::is_subtype_of(arena::word(arena, a, 1), arena::word(arena, b, 1))
}

// Whether node m is a Neg that holds x or a wider primitive.
pub fn is_negated_by(arena: &[u32], x: u32, m: u32) -> bool
    ensures { Pairs negated_by arena.now x m result }
{
    arena::is(arena, OutputTy::Neg, m)
        && is_output_subtype_or_equal(arena, x, arena::word(arena, m, 1))
}

// Whether node m is the Neg of x.
pub fn is_negation(arena: &[u32], x: u32, m: u32) -> bool
    ensures { Pairs negates arena.now x m result }
{
    arena::is(arena, OutputTy::Neg, m) && arena::word(arena, m, 1) == x
}
