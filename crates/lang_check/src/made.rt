// What is made of an entry once its children have answers.
ghost use Rattle.std.specs.Prelude.{Ok};
ghost use Rattle.lang_ty.specs.Given.{given};
ghost use Rattle.members.specs.Flow.{On};
ghost use Rattle.composites.specs.Tried.{tried};
ghost use Rattle.lang_check.specs.Cycle.{Made, Retried};
ghost use Rattle.lang_check.specs.Making.{MadeOfOne};

use cells::{at, get, place};
use composites::binary;
use composites::binary::Outcome;
use lang_ty::arena;
use lang_ty::arena::{OutputTy, Pass};
use negation::negate_output_ty;
use rules::{Polarity, Refusal};
use storage::entries::Entry;
use storage::given::Canon;
use storage::sets::store_set;
use storage::vars::variable;

// The node of an entry of one child or none, whose answer is held at h. A table with a frozen entry is refused, so that none is met.
fn made_of_one(
    table: &[u32],
    c: Canon,
    arena: &mut [u32],
    work: &mut [u32],
    h: u32,
    q: &mut Pass,
    e: Entry,
) -> Result<u32, Refusal>
    ensures { MadeOfOne table.now c arena.old work.old h q.old e arena.new work.new (given result q.new) }
{
    let x = at(work, h);
    match e {
        Entry::Primitive(p) => arena::store_one(arena, q, OutputTy::Primitive, p),
        Entry::TyVar(v) => variable(table, c, arena, q, v),
        Entry::List(_) => arena::store_one(arena, q, OutputTy::List, x),
        Entry::Neg(_) => negate_output_ty(arena, work, h, q, x),
        Entry::Named(name, _) => arena::store_two(arena, q, OutputTy::Named, name, x),
        _ => Err(Refusal::Frozen),
    }
}

// The node of an entry whose children's answers are held from h on.
pub fn made(
    table: &[u32],
    c: Canon,
    arena: &mut [u32],
    work: &mut [u32],
    h: u32,
    q: &mut Pass,
    e: Entry,
    pol: Polarity,
) -> Result<u32, Refusal>
    ensures { Made table.now c arena.old work.old h (On q.old) e pol arena.new work.new (given result q.new) }
{
    match e {
        Entry::Lambda(_, _) => {
            let x = at(work, h);
            let y = get(work, place(h, 1));
            arena::store_two(arena, q, OutputTy::Lambda, x, y)
        }
        Entry::AttrSet(a) => store_set(table, a, arena, work, h, q),
        Entry::Union(_, _) => binary::union_of(table, c, arena, work, h, q, pol),
        _ => made_of_one(table, c, arena, work, h, q, e),
    }
}

// A retry that contradicts itself too is Bottom.
pub fn retried(arena: &mut [u32], q: &mut Pass, t: Outcome) -> Result<u32, Refusal>
    ensures { Retried arena.old (tried (Ok t) q.old) arena.new (given result q.new) }
{
    match t {
        Outcome::Node(x) => Ok(x),
        Outcome::Contradiction(_) => arena::store_leaf(arena, q, OutputTy::Bottom),
    }
}
