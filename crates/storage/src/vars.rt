// A variable as a node: its representative, and itself beside what its bounds expand to.
ghost use Rattle.std.specs.Prelude.{◌≡◌};
ghost use Rattle.rules.specs.Canonicalizer.{composite_kind};
ghost use Rattle.lang_ty.specs.Given.{given};
ghost use Rattle.lang_ty.specs.Nodes.{code};
ghost use Rattle.storage.specs.Vars.{IsVariable, IsPreserved, Beside, Expanded};

use crate::equiv::rep;
use crate::given::Canon;
use cells::{get, place};
use lang_ty::arena;
use lang_ty::arena::{OutputTy, Pass};
use layout::TableSlice;
use rules::{Polarity, Refusal};

// TyVar(rep)
pub fn variable(
    table: &[u32],
    c: Canon,
    arena: &mut [u32],
    q: &mut Pass,
    id: u32,
) -> Result<u32, Refusal>
    ensures { IsVariable table.now c arena.old q.old id arena.new (given result q.new) }
{
    arena::store_one(arena, q, OutputTy::TyVar, rep(table, c.count, id))
}

pub fn is_preserved(table: &[u32], c: Canon, id: u32) -> bool
    ensures { IsPreserved table.now c id result }
{
    get(table, place(TableSlice::PRESERVED, rep(table, c.count, id))) != 0
}

// The kind of node that bounds of a place make.
fn composite(pol: Polarity) -> OutputTy
    ensures { code result ≡ composite_kind pol }
{
    match pol {
        Polarity::Positive => OutputTy::Union,
        Polarity::Negative => OutputTy::Intersection,
    }
}

// The variable beside node x, unless that is a TyVar or Bottom.
fn beside(
    table: &[u32],
    c: Canon,
    arena: &mut [u32],
    q: &mut Pass,
    x: u32,
    id: u32,
    pol: Polarity,
) -> Result<u32, Refusal>
    ensures { Beside table.now c arena.old q.old x id pol arena.new (given result q.new) }
{
    let k = arena::kind(arena, x);
    let y = variable(table, c, arena, q, id)?;
    match k {
        OutputTy::TyVar | OutputTy::Bottom => Ok(y),
        _ => arena::store_both(arena, q, composite(pol), y, x),
    }
}

// The expansion of a variable's bounds, beside the variable where it is preserved.
pub fn expanded(
    table: &[u32],
    c: Canon,
    arena: &mut [u32],
    q: &mut Pass,
    g: Result<u32, Refusal>,
    id: u32,
    pol: Polarity,
    kept: bool,
) -> Result<u32, Refusal>
    ensures { Expanded table.now c arena.old (given g q.old) id pol kept arena.new (given result q.new) }
{
    let x = g?;
    if kept {
        return beside(table, c, arena, q, x, id, pol);
    }
    Ok(x)
}
