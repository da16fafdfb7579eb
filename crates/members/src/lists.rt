// Lists of members by value, and what the functions on them share.
ghost use Rattle.std.specs.Prelude.{[], ◌∷◌, ◌≡◌, Ok};
ghost use Rattle.std.specs.Result.{is_ok};
ghost use Rattle.lang_ty.specs.declared.arena.Pass.{Pass};
ghost use Rattle.lang_ty.specs.Given.{given};
ghost use Rattle.members.specs.AtMostOne.{at_most_one};
ghost use Rattle.members.specs.Grown.{grown};
ghost use Rattle.members.specs.Listed.{listed};
ghost use Rattle.cells.specs.Part.{part};
ghost use Rattle.lang_ty.specs.Nodes.{code};
ghost use Rattle.rules.specs.Members.{is_positive, is_concrete};
ghost use Rattle.members.specs.Lists.{Few, Lists, Makes, Tests, Asks, SiftsBy, AnyBy, Contains, KeepsIf, MembersOf, any_of_kind, of_kind, sift, Soles, Grows, CopiedInto};
ghost use Rattle.members.specs.Lists.{Joined, AsListed, WithLast, Drops, DropsFillers};

use cells::{add, at, get, place, put, set};
use lang_ty::arena::{OutputTy, Pass};
use lang_ty::{arena, disjoint};
use rules::Refusal;

// The first count cells of at; a count above 128 says that there are more than fit.
#[derive(Clone, Copy)]
pub struct Members {
    pub count: u32,
    pub at: [u32; 128],
}

pub fn none() -> Members
    ensures { Few result [] }
{
    Members {
        count: 0,
        at: [0u32; 128],
    }
}

impl Members {
    // The members for which keep says so.
    pub fn sift<F: Fn(u32) -> bool>(&self, keep: F) -> Members
        requires { F.IsAlwaysCallable keep }
        ensures { SiftsBy (F.post keep) self.now result }
    {
        let mut out = [0u32; 128];
        let mut k = 0;
        for i in 0..self.count {
            let x = at(&self.at, i);
            k = keep_if(&mut out, k, x, keep(x));
        }
        Members { count: k, at: out }
    }

    // Whether test holds of a member from place from on.
    pub fn any_from<F: Fn(u32) -> bool>(&self, from: u32, test: F) -> bool
        requires { F.IsAlwaysCallable test }
        ensures { AnyBy (F.post test) self.now from result }
    {
        for i in from..self.count {
            if test(at(&self.at, i)) {
                return true;
            }
        }
        false
    }
}

// The n cells held from h on; a count above 128 where they do not fit.
pub fn held(s: &[u32], h: u32, n: u32) -> Members
    ensures { Lists result (part s.now h n) }
{
    let mut out = [0u32; 128];
    for i in 0..n {
        set(&mut out, i, get(s, place(h, i)));
    }
    Members { count: n, at: out }
}

// Whether x is among the first n cells of s.
pub fn contains(s: &[u32], n: u32, x: u32) -> bool
    ensures { Contains s.now n x result }
{
    for i in 0..n {
        if at(s, i) == x {
            return true;
        }
    }
    false
}

// x put after the first k cells of out, if it is to be kept; how many there are then.
pub fn keep_if(out: &mut [u32], k: u32, x: u32, kept: bool) -> u32
    ensures { KeepsIf out.old k x kept out.new result }
{
    if !kept {
        return k;
    }
    set(out, k, x);
    add(k, 1)
}

// The members of node x, where it is a union or an intersection.
pub fn members_of(arena: &[u32], x: u32) -> Members
    ensures { MembersOf arena.now x result }
{
    let n = arena::count(arena, x);
    let mut out = [0u32; 128];
    for i in 0..n {
        set(&mut out, i, arena::member(arena, x, i));
    }
    Members { count: n, at: out }
}

pub fn any_of_kind(arena: &[u32], m: Members, kind: OutputTy) -> bool
    ensures { Tests (any_of_kind (code kind)) arena.now m result }
{
    m.any_from(0, |x| arena::is(arena, kind, x))
}

// Neither a Neg nor a TyVar, Bottom or Top.
pub fn is_positive(arena: &[u32], x: u32) -> bool
    ensures { Asks is_positive arena.now x result }
{
    match arena::kind(arena, x) {
        OutputTy::Neg | OutputTy::TyVar | OutputTy::Bottom | OutputTy::Top => false,
        _ => true,
    }
}

pub fn is_concrete(arena: &[u32], x: u32) -> bool
    ensures { Asks is_concrete arena.now x result }
{
    disjoint::is_constructor(arena::kind(arena, x))
}

// Nothing of nothing, a sole member itself, more as one stored node of that kind.
pub fn sole(
    arena: &mut [u32],
    q: &mut Pass,
    kind: OutputTy,
    m: Members,
) -> Result<Option<u32>, Refusal>
    ensures { Soles (code kind) arena.old q.old m arena.new (at_most_one result q.new) }
{
    let ms = m.at;
    let n = m.count;
    if n == 0 {
        return Ok(None);
    }
    if n == 1 {
        return Ok(Some(ms[0]));
    }
    let x = arena::store_list(arena, q, kind, &ms, 0, n)?;
    Ok(Some(x))
}

// What is left of a member put after the first k cells of out; how many there are then. A refusal is handed on.
pub fn grow(out: &mut [u32], k: u32, p: Result<Option<u32>, Refusal>) -> Result<u32, Refusal>
    ensures grows { (q : Pass) → Grows out.old k (at_most_one p q) out.new (grown result q) }
    ensures answered { is_ok result ≡ is_ok p }
{
    match p? {
        None => Ok(k),
        Some(x) => {
            set(out, k, x);
            Ok(add(k, 1))
        }
    }
}

// The members put after the first k cells of out; how many there are then.
fn copy_into(out: &mut [u32], k: u32, m: Members) -> u32
    ensures { CopiedInto out.old k m out.new result }
{
    let ms = m.at;
    let n = m.count;
    for i in 0..n {
        put(out, place(k, i), at(&ms, i));
    }
    add(k, n)
}

// a followed by b; a count above 128 where they do not fit.
pub fn joined(a: Members, b: Members) -> Members
    ensures { Joined a b result }
{
    let mut out = [0u32; 128];
    let k = copy_into(&mut out, 0, a);
    let n = copy_into(&mut out, k, b);
    Members { count: n, at: out }
}

pub fn one(x: u32) -> Members
    ensures { Few result (x ∷ []) }
{
    let mut ms = [0u32; 128];
    ms[0] = x;
    Members { count: 1, at: ms }
}

// The list of one member or none.
pub fn of_at_most_one(p: Option<u32>) -> Members
    ensures { (q : Pass) → AsListed (at_most_one (Ok p) q) (listed (Ok result) q) }
{
    match p {
        None => none(),
        Some(x) => one(x),
    }
}

// The members that are of that kind, or those that are not.
pub fn of_kind(arena: &[u32], m: Members, kind: OutputTy, wanted: bool) -> Members
    ensures { Makes (sift (of_kind (code kind) wanted)) arena.now m result }
{
    if wanted {
        m.sift(|x| arena::is(arena, kind, x))
    } else {
        m.sift(|x| !arena::is(arena, kind, x))
    }
}

// The members and a node after them. A refusal is handed on.
pub fn with_last(m: Members, g: Result<u32, Refusal>) -> Result<Members, Refusal>
    ensures adds { (q : Pass) → WithLast m (given g q) (listed result q) }
    ensures answered { is_ok result ≡ is_ok g }
{
    let x = g?;
    Ok(joined(m, one(x)))
}

// should_drop_filler: Bottom, Top, or a TyVar of count or more, or one that is not preserved, as the cells of the table from f on tell.
fn should_drop_filler(arena: &[u32], table: &[u32], f: u32, count: u32, x: u32) -> bool
    ensures { Drops table.now f count arena.now x result }
{
    match arena::kind(arena, x) {
        OutputTy::Bottom | OutputTy::Top => true,
        OutputTy::TyVar => {
            let v = arena::word(arena, x, 1);
            count <= v || get(table, place(f, v)) == 0
        }
        _ => false,
    }
}

// The members that are no fillers.
pub fn drop_fillers(arena: &[u32], table: &[u32], f: u32, count: u32, m: Members) -> Members
    ensures { DropsFillers table.now f count arena.now m result }
{
    m.sift(|x| !should_drop_filler(arena, table, f, count, x))
}
