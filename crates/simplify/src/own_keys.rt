// The keys of the sets of a list, counted: a set that requires a key which no other of them has takes up none of the others.
ghost use Rattle.simplify.specs.OwnKeys.{CountsKeys, CountsMember, CountsMembers, OwnKey, MarksIfOwn, MarksOwn};

use cells::{add, at, set};
use lang_ty::arena::OutputTy;
use lang_ty::{arena, attrset, disjoint};

// One more in counts for each key of the set at a.
fn count_keys(words: &[u32], a: u32, counts: &mut [u32])
    ensures { CountsKeys words.now a counts.old counts.new }
{
    let n = attrset::fields(words, a);
    for i in 0..n {
        let k = attrset::key(words, a, i);
        let c = add(at(counts, k), 1);
        set(counts, k, c);
    }
}

// One more in counts for each key of node x, if it is a set.
fn count_member(arena: &[u32], x: u32, counts: &mut [u32])
    ensures { CountsMember arena.now x counts.old counts.new }
{
    if !arena::is(arena, OutputTy::AttrSet, x) {
        return;
    }
    count_keys(arena, disjoint::set_place(arena, x), counts);
}

// How many of the first n cells of s are sets with a key, for each key.
fn count_members(arena: &[u32], s: &[u32], n: u32, counts: &mut [u32])
    ensures { CountsMembers arena.now s.now n counts.old counts.new }
{
    for i in 0..n {
        count_member(arena, at(s, i), counts);
    }
}

// Node x is a set without optional keys, and one of its keys was counted once. Where there are optional keys it is not asked which.
fn has_own_key(arena: &[u32], counts: &[u32], x: u32) -> bool
    ensures { OwnKey arena.now counts.now x result }
{
    if !arena::is(arena, OutputTy::AttrSet, x) {
        return false;
    }
    let a = disjoint::set_place(arena, x);
    let n = attrset::fields(arena, a);
    attrset::optionals(arena, a) == 0 && (0..n).any(|i| at(counts, attrset::key(arena, a, i)) == 1)
}

// Marks place i in own if x, the member there, is seen to have a key that no other set of the list has.
fn mark_if_own(arena: &[u32], counts: &[u32], x: u32, i: u32, own: &mut [u32])
    ensures { MarksIfOwn arena.now counts.now x i own.old own.new }
{
    if has_own_key(arena, counts, x) {
        set(own, i, 1);
    }
}

// Marks in own the places of sets that have a key of their own. In a short list none is looked for: the counts alone are 4 KB to clear.
pub fn mark_own(arena: &[u32], s: &[u32], n: u32, own: &mut [u32])
    ensures { MarksOwn arena.now s.now n own.old own.new }
{
    if n < 16 {
        return;
    }
    let mut counts = [0u32; 1024];
    count_members(arena, s, n, &mut counts);
    for i in 0..n {
        mark_if_own(arena, &counts, at(s, i), i, own);
    }
}
