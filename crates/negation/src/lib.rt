// Negation.
#![tactic(auto)]

ghost use Rattle.lang_ty.specs.Given.{given};
ghost use Rattle.lang_ty.specs.Nodes.{code};
ghost use Rattle.negation.specs.Negations.{Turns, StoresNegation, NegatesSingle, Recalled, Noted, Completes, Forgets, Negates, NegatesOutput};

use cells::{add, clear, get, place, put};
use lang_ty::arena;
use lang_ty::arena::{OutputTy, Pass};
use layout::WorkSlice;
use rules::Refusal;

// The kind of node that the negations of the members of one of that kind make; any other kind turns into a Neg.
fn turned(kind: OutputTy) -> OutputTy
    ensures { Turns (code kind) (code result) }
{
    match kind {
        OutputTy::Union => OutputTy::Intersection,
        OutputTy::Intersection => OutputTy::Union,
        _ => OutputTy::Neg,
    }
}

// The Neg of node x, or the node of the negations of its members, held from h on.
fn store_negation(
    arena: &mut [u32],
    held: &[u32],
    h: u32,
    q: &mut Pass,
    x: u32,
) -> Result<u32, Refusal>
    ensures { StoresNegation arena.old held.now h q.old x arena.new (given result q.new) }
{
    match turned(arena::kind(arena, x)) {
        OutputTy::Neg => arena::store_one(arena, q, OutputTy::Neg, x),
        kind => {
            let n = arena::count(arena, x);
            arena::store_list(arena, q, kind, held, h, n)
        }
    }
}

// The negation of node x, which has no members: a Neg comes off, anything else is wrapped. It stays out of line, as complete does.
#[inline(never)]
fn negate_single(
    arena: &mut [u32],
    held: &[u32],
    h: u32,
    q: &mut Pass,
    x: u32,
) -> Result<u32, Refusal>
    ensures { NegatesSingle arena.old q.old x arena.new (given result q.new) }
{
    if arena::is(arena, OutputTy::Neg, x) {
        return Ok(arena::word(arena, x, 1));
    }
    store_negation(arena, held, h, q, x)
}

// What this negation made of node x before: its cell has the number of that node and 1, or 0.
fn recalled(held: &[u32], x: u32) -> Option<u32>
    ensures { Recalled held.now x result }
{
    get(held, place(WorkSlice::NEGATED, x)).checked_sub(1)
}

// Node x came to node y.
fn remember(held: &mut [u32], x: u32, y: u32)
    ensures { Noted held.old x y held.new }
{
    put(held, place(WorkSlice::NEGATED, x), add(y, 1));
}

// Nothing is remembered of node x and of those below it, which its negation can meet. One that has no members meets no other.
fn forget(arena: &[u32], held: &mut [u32], x: u32)
    ensures { Forgets arena.now held.old x held.new }
{
    if arena::count(arena, x) != 0 {
        clear(held, WorkSlice::NEGATED, add(x, 1));
    }
}

// The node of the negations of the members of x, held from h on; that x came to it is remembered. It stays out of line: what it takes of the stack is no part of a
// level of a negation.
#[inline(never)]
fn complete(
    arena: &mut [u32],
    held: &mut [u32],
    h: u32,
    q: &mut Pass,
    x: u32,
) -> Result<u32, Refusal>
    ensures { Completes arena.old held.old h q.old x arena.new held.new (given result q.new) }
{
    let y = store_negation(arena, held, h, q, x)?;
    remember(held, x, y);
    Ok(y)
}

// The negation of node x: a union or an intersection turns over, once, however often it is met. The negations of its members, which have smaller
// numbers, are held from h on. It can be thousands of levels deep, and a level keeps as little as it can.
fn negate(arena: &mut [u32], held: &mut [u32], h: u32, q: &mut Pass, x: u32) -> Result<u32, Refusal>
    ensures { Negates arena.old held.old h q.old x arena.new held.new (given result q.new) }
{
    let n = arena::count(arena, x);
    if n == 0 {
        return negate_single(arena, held, h, q, x);
    }
    if let Some(y) = recalled(held, x) {
        return Ok(y);
    }
    for i in 0..n {
        let m = arena::member(arena, x, i);
        if x <= m {
            return Ok(x);
        }
        let y = negate(arena, held, add(h, n), q, m)?;
        put(held, place(h, i), y);
    }
    complete(arena, held, h, q, x)
}

// negate_output_ty
pub fn negate_output_ty(
    arena: &mut [u32],
    held: &mut [u32],
    h: u32,
    q: &mut Pass,
    x: u32,
) -> Result<u32, Refusal>
    ensures { NegatesOutput arena.old held.old h q.old x arena.new held.new (given result q.new) }
{
    forget(arena, held, x);
    negate(arena, held, h, q, x)
}
