// Constructor-shape disjointness.
ghost use Rattle.lang_ty.specs.Nodes.{code};
ghost use Rattle.lang_ty.specs.Shapes.{SetPlace, Lacks, Apart, Constructor, SameDisjoint, Disjoint};

use crate::arena::OutputTy;
use crate::{arena, attrset, primitive};
use cells::{add, at};

// The set's place in the row of node x.
pub fn set_place(arena: &[u32], x: u32) -> u32
    ensures { SetPlace arena.now x result }
{
    add(at(arena, x), 1)
}

// The set at a is closed, and the one at b requires a field that it lacks.
fn lacks(words: &[u32], a: u32, b: u32) -> bool
    ensures { Lacks words.now a b result }
{
    attrset::open(words, a) == 0 && !attrset::fields_cover(words, b, a)
}

fn primitives_disjoint(a: u32, b: u32) -> bool
    ensures { Apart a b result }
{
    !(a == b || primitive::is_subtype_of(a, b) || primitive::is_subtype_of(b, a))
}

// A kind whose constructor is known: a primitive, a list, a lambda or a set.
pub fn is_constructor(k: OutputTy) -> bool
    ensures { Constructor (code k) result }
{
    match k {
        OutputTy::Primitive | OutputTy::List | OutputTy::Lambda | OutputTy::AttrSet => true,
        _ => false,
    }
}

// Two nodes of one constructor.
fn same_disjoint(arena: &[u32], k: OutputTy, a: u32, b: u32) -> bool
    ensures { SameDisjoint arena.now (code k) a b result }
{
    match k {
        OutputTy::Primitive => {
            primitives_disjoint(arena::word(arena, a, 1), arena::word(arena, b, 1))
        }
        OutputTy::AttrSet => {
            let s = set_place(arena, a);
            let t = set_place(arena, b);
            lacks(arena, s, t) || lacks(arena, t, s)
        }
        _ => false,
    }
}

// are_output_types_disjoint with are_shapes_disjoint; functor is the number of the name `__functor`.
pub fn are_shapes_disjoint(arena: &[u32], functor: u32, a: u32, b: u32) -> bool
    ensures { Disjoint arena.now functor a b result }
{
    let j = arena::kind(arena, a);
    let k = arena::kind(arena, b);
    if !is_constructor(j) || !is_constructor(k) {
        return false;
    }
    if j.number() == k.number() {
        return same_disjoint(arena, j, a, b);
    }
    match j {
        OutputTy::AttrSet => match k {
            OutputTy::Lambda => !attrset::has_field(arena, set_place(arena, a), functor),
            _ => true,
        },
        OutputTy::Lambda => match k {
            OutputTy::AttrSet => !attrset::has_field(arena, set_place(arena, b), functor),
            _ => true,
        },
        _ => true,
    }
}
