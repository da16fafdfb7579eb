// What bounds, unions and intersections share: answers flattened, fillers dropped, a list settled as a node.
ghost use Rattle.lang_ty.specs.Nodes.{code};
ghost use Rattle.lang_ty.specs.declared.arena.Pass.{Pass};
ghost use Rattle.lang_ty.specs.Given.{given};
ghost use Rattle.members.specs.Flow.{flow};
ghost use Rattle.members.specs.Listed.{listed};
ghost use Rattle.members.specs.Lists.{Makes, DropsFillers};
ghost use Rattle.layout.specs.Layout.{preserved_at};
ghost use Rattle.composites.specs.Settled.{settled};
ghost use Rattle.composites.specs.Lists.{Flattens, union_members, TopIfEmptied, SettlesList, FirstOrBottom, OrFirst, FirstMember, SettlesUnion};

use lang_ty::arena;
use lang_ty::arena::{OutputTy, Pass};
use layout::TableSlice;
use members::lists::Members;
use members::{flatten, lists};
use rules::{Polarity, Refusal};
use simplify::unions;
use storage::given::Canon;

// How a list ends: as a node, or with nothing left of it beside its first member before filtering.
#[derive(Clone, Copy)]
pub enum Ending {
    Node(u32),
    Empty(Option<u32>),
}

// Whether a list of which nothing is left gives Top: there were some in a positive place, and they cancelled.
pub fn top_if_emptied(pol: Polarity, m: Members) -> bool
    ensures { TopIfEmptied pol m result }
{
    match pol {
        Polarity::Positive => 0 < m.count,
        Polarity::Negative => false,
    }
}

// flatten_composite of the n answers held from h on; an earlier refusal stays, and too many before it or after it are refused.
pub fn flattened(
    arena: &[u32],
    work: &[u32],
    h: u32,
    n: u32,
    f: Result<(), Refusal>,
    kind: u32,
) -> Result<Members, Refusal>
    ensures { (q : Pass) → Flattens kind arena.now work.now h n (flow f q) (listed result q) }
{
    f?;
    if Pass::MEMBERS < n {
        return Err(Refusal::Members);
    }
    let m = flatten::flatten_composite(arena, lists::held(work, h, n), kind);
    if Pass::MEMBERS < m.count {
        return Err(Refusal::Members);
    }
    Ok(m)
}

// The members that are no fillers in this pass.
pub fn real_members(table: &[u32], c: Canon, arena: &[u32], m: Members) -> Members
    ensures { DropsFillers table.now preserved_at c.count arena.now m result }
{
    lists::drop_fillers(arena, table, TableSlice::PRESERVED, c.count, m)
}

// The members of a union: pairs cancel in a positive place only.
fn union_normalized(arena: &[u32], m: Members, pol: Polarity) -> Members
    ensures { Makes (union_members pol) arena.now m result }
{
    match pol {
        Polarity::Positive => {
            let p = unions::remove_tautological_pairs(arena, m);
            unions::absorb_subsumed_union_members(arena, p)
        }
        Polarity::Negative => unions::absorb_subsumed_union_members(arena, m),
    }
}

// A list as a node: Top where all members of a positive place cancelled, nothing, a sole member, or a composite; first is its first member
// before filtering.
pub fn settle(
    arena: &mut [u32],
    q: &mut Pass,
    m: Members,
    kind: OutputTy,
    cancelled: bool,
    first: Option<u32>,
) -> Result<Ending, Refusal>
    ensures { SettlesList (code kind) arena.old q.old m cancelled first arena.new (settled result q.new) }
{
    let n = m.count;
    if n == 1 {
        return Ok(Ending::Node(m.at[0]));
    }
    if n != 0 {
        let x = arena::store_list(arena, q, kind, &m.at, 0, n)?;
        return Ok(Ending::Node(x));
    }
    if cancelled {
        let x = arena::store_leaf(arena, q, OutputTy::Top)?;
        return Ok(Ending::Node(x));
    }
    Ok(Ending::Empty(first))
}

// The first member before filtering, or Bottom where there was none.
fn first_or_bottom(arena: &mut [u32], q: &mut Pass, first: Option<u32>) -> Result<u32, Refusal>
    ensures { FirstOrBottom arena.old first q.old arena.new (given result q.new) }
{
    match first {
        Some(x) => Ok(x),
        None => arena::store_leaf(arena, q, OutputTy::Bottom),
    }
}

// The node as which a list ends, or the first member before filtering.
pub fn or_first(arena: &mut [u32], q: &mut Pass, e: Result<Ending, Refusal>) -> Result<u32, Refusal>
    ensures { OrFirst arena.old (settled e q.old) arena.new (given result q.new) }
{
    match e? {
        Ending::Node(x) => Ok(x),
        Ending::Empty(first) => first_or_bottom(arena, q, first),
    }
}

pub fn first_of(m: Members) -> Option<u32>
    ensures { FirstMember m result }
{
    if m.count == 0 {
        return None;
    }
    Some(m.at[0])
}

// The n answers held from h on as a union: flattened, without fillers, normalized and settled.
pub fn settle_union(
    table: &[u32],
    c: Canon,
    arena: &mut [u32],
    work: &[u32],
    h: u32,
    q: &mut Pass,
    n: u32,
    f: Result<(), Refusal>,
    pol: Polarity,
) -> Result<Ending, Refusal>
    ensures { SettlesUnion table.now c arena.old work.now h n (flow f q.old) pol arena.new (settled result q.new) }
{
    let all = flattened(arena, work, h, n, f, OutputTy::Union.number())?;
    let m = real_members(table, c, arena, all);
    let a = union_normalized(arena, m, pol);
    let cancelled = top_if_emptied(pol, m);
    settle(arena, q, a, OutputTy::Union, cancelled, first_of(all))
}
