// What is done to the members of a union: cancelling pairs, absorbing sets.
ghost use Rattle.rules.specs.Members.{remove_tautological_pairs, absorb_subsumed_union_members};
ghost use Rattle.members.specs.Lists.{Makes};
ghost use Rattle.simplify.specs.Unions.{Cancels, DynCovers, Subsumes, MarksIf, Takes, MarksTaken, Leaves};

use crate::own_keys::mark_own;
use crate::pairs::is_negation;
use cells::{at, set};
use lang_ty::arena::OutputTy;
use lang_ty::{arena, attrset, disjoint};
use members::lists::{Members, any_of_kind, contains, is_positive, keep_if, of_kind};

// x is one half of a pair: a positive that one of the Negs holds, or the Neg of a positive member.
fn is_cancelled(arena: &[u32], m: &Members, negs: &Members, x: u32) -> bool
    ensures { Cancels arena.now m.now negs.now x result }
{
    if arena::is(arena, OutputTy::Neg, x) {
        let inner = arena::word(arena, x, 1);
        return is_positive(arena, inner) && contains(&m.at, m.count, inner);
    }
    is_positive(arena, x) && negs.any_from(0, |y| is_negation(arena, x, y))
}

// remove_tautological_pairs. Without a Neg there is no pair; else the Negs are gathered, so that only these are scanned for each member.
pub fn remove_tautological_pairs(arena: &[u32], m: Members) -> Members
    ensures { Makes remove_tautological_pairs arena.now m result }
{
    if !any_of_kind(arena, m, OutputTy::Neg) {
        return m;
    }
    let negs = of_kind(arena, m, OutputTy::Neg, true);
    m.sift(|x| !is_cancelled(arena, &m, &negs, x))
}

// The set at a has no dyn, or that of the one at b.
fn dyn_covers(words: &[u32], a: u32, b: u32) -> bool
    ensures { DynCovers words.now a b result }
{
    attrset::dyns(words, a) == 0
        || attrset::dyns(words, b) != 0
            && attrset::dyn_type(words, a) == attrset::dyn_type(words, b)
}

// Node x is an open set that takes up node y, an open set.
fn subsumes(arena: &[u32], x: u32, y: u32) -> bool
    ensures { Subsumes arena.now x y result }
{
    if !arena::is(arena, OutputTy::AttrSet, y) {
        return false;
    }
    let a = disjoint::set_place(arena, x);
    let b = disjoint::set_place(arena, y);
    if attrset::open(arena, a) != 1 || attrset::open(arena, b) != 1 {
        return false;
    }
    dyn_covers(arena, a, b) && attrset::fields_cover(arena, a, b)
}

fn mark_if(gone: &mut [u32], j: u32, taken: bool)
    ensures { MarksIf gone.old j taken gone.new }
{
    if taken {
        set(gone, j, 1);
    }
}

// Whether x, the member at place i, takes up the one at place j, which is another and not gone.
fn takes_up(arena: &[u32], m: &Members, i: u32, x: u32, j: u32, gone: &[u32]) -> bool
    ensures { Takes arena.now m.now.at i x j gone.now result }
{
    i != j && at(gone, j) == 0 && subsumes(arena, x, at(&m.at, j))
}

// Marks in gone the places of the members that the one at place i takes up, if it is a set that is not gone itself. A place in own takes up none.
fn mark_taken(arena: &[u32], m: &Members, i: u32, own: &[u32], gone: &mut [u32])
    ensures { MarksTaken arena.now m.now i own.now gone.old gone.new }
{
    if at(own, i) != 0 || at(gone, i) != 0 {
        return;
    }
    let x = at(&m.at, i);
    if !arena::is(arena, OutputTy::AttrSet, x) {
        return;
    }
    for j in 0..m.count {
        let taken = takes_up(arena, m, i, x, j, gone);
        mark_if(gone, j, taken);
    }
}

// The members whose places are not gone: kept by their places, so not by `sift`, which shows the members alone.
fn left(m: &Members, gone: &[u32]) -> Members
    ensures { Leaves m.now gone.now result }
{
    let mut out = [0u32; 128];
    let mut k = 0;
    for i in 0..m.count {
        k = keep_if(&mut out, k, at(&m.at, i), at(gone, i) == 0);
    }
    Members { count: k, at: out }
}

// absorb_subsumed_union_members
pub fn absorb_subsumed_union_members(arena: &[u32], m: Members) -> Members
    ensures { Makes absorb_subsumed_union_members arena.now m result }
{
    let mut own = [0u32; 128];
    mark_own(arena, &m.at, m.count, &mut own);
    let mut gone = [0u32; 128];
    for i in 0..m.count {
        mark_taken(arena, &m, i, &own, &mut gone);
    }
    left(&m, &gone)
}
