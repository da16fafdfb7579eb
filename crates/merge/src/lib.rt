// Merging: the sets of an intersection become one.
#![tactic(auto)]

ghost use Rattle.std.specs.Prelude.{◌≡◌};
ghost use Rattle.cells.specs.Part.{part};
ghost use Rattle.lang_ty.specs.Given.{given};
ghost use Rattle.lang_ty.specs.Nodes.{Written};
ghost use Rattle.members.specs.Flow.{flow};
ghost use Rattle.members.specs.Listed.{listed};
ghost use Rattle.merge.specs.Merged.{On, merged};
ghost use Rattle.merge.specs.Merges.{MergesSets, Meets, PutsField, HeldKey, HeldType, ComesNext, MergesField, old_taken, new_taken, MergesFields};
ghost use Rattle.merge.specs.Merges.{MergesDyn, OtherArea, MergesOne, MergesAll, OpenIfAll, WritesDyn, WritesFields, PutsIf};
ghost use Rattle.merge.specs.Merges.{ListsKeys, Sieved, SievesKeys, SievesAll, WritesOptional, WritesFlags, StoresMerged, MergedLast};

use cells::{add, at, get, place, put, set};
use lang_ty::arena::{OutputTy, Pass};
use lang_ty::attrset::Keys;
use lang_ty::{arena, attrset, disjoint};
use layout::WorkSlice;
use members::lists::{Members, of_kind, with_last};
use rules::Refusal;
use std::cmp::Ordering;

// What sets come to so far: fields held at a place, and a dyn or none.
#[derive(Clone, Copy)]
struct Merging {
    fields: u32,
    area: u32,
    dyn_type: Option<u32>,
}

// Two types of one key: an earlier TyVar gives way, two that differ are intersected.
fn meet_types(arena: &mut [u32], q: &mut Pass, old: u32, new: u32) -> Result<u32, Refusal>
    ensures { Meets arena.old q.old old new arena.new (given result q.new) }
{
    if old == new || arena::is(arena, OutputTy::TyVar, old) {
        return Ok(new);
    }
    arena::store_both(arena, q, OutputTy::Intersection, old, new)
}

// Key and type put at field i of the area at a.
fn put_field(held: &mut [u32], a: u32, i: u32, key: u32, ty: u32)
    ensures { PutsField held.old a i key ty held.new }
{
    put(held, place(a, add(i, i)), key);
    put(held, place(a, add(add(i, i), 1)), ty);
}

fn held_key(held: &[u32], a: u32, i: u32) -> u32
    ensures { HeldKey held.now a i result }
{
    get(held, place(a, add(i, i)))
}

fn held_type(held: &[u32], a: u32, i: u32) -> u32
    ensures { HeldType held.now a i result }
{
    get(held, place(a, add(add(i, i), 1)))
}

// Which of two ordered lists has the next key: the old, the new, or both.
#[derive(Clone, Copy)]
enum Next {
    Old,
    New,
    Both,
}

impl Next {
    // One where the old list's field is taken, and where the new one's is.
    fn takes_old(self) -> u32
        ensures { result ≡ old_taken self }
    {
        u32::from(matches!(self, Next::Old | Next::Both))
    }

    fn takes_new(self) -> u32
        ensures { result ≡ new_taken self }
    {
        u32::from(matches!(self, Next::New | Next::Both))
    }
}

// A walk along a list of fields: where they stand, how many are taken, and how many there are.
#[derive(Clone, Copy)]
struct Walk {
    at: u32,
    taken: u32,
    count: u32,
}

// The next of the fields held, which are the old ones, and of those of a set, which are the new ones.
fn next_field(words: &[u32], held: &[u32], old: Walk, new: Walk) -> Next
    ensures { ComesNext words.now held.now old.at old.taken old.count new.at new.taken new.count result }
{
    if new.count <= new.taken {
        return Next::Old;
    }
    if old.count <= old.taken {
        return Next::New;
    }
    let x = held_key(held, old.at, old.taken);
    let y = attrset::key(words, new.at, new.taken);
    match x.cmp(&y) {
        Ordering::Less => Next::Old,
        Ordering::Equal => Next::Both,
        Ordering::Greater => Next::New,
    }
}

// The next old field, the next new one, or both met, put as field k of the area at b.
fn merge_field(
    arena: &mut [u32],
    held: &mut [u32],
    q: &mut Pass,
    next: Next,
    old: Walk,
    new: Walk,
    b: u32,
    k: u32,
) -> Result<(), Refusal>
    ensures { MergesField arena.old held.old q.old next old.at old.taken new.at new.taken b k arena.new held.new (flow result q.new) }
{
    let x = held_type(held, old.at, old.taken);
    let y = attrset::field_type(arena, new.at, new.taken);
    match next {
        Next::Old => put_field(held, b, k, held_key(held, old.at, old.taken), x),
        Next::New => put_field(held, b, k, attrset::key(arena, new.at, new.taken), y),
        Next::Both => {
            let z = meet_types(arena, q, x, y)?;
            put_field(held, b, k, held_key(held, old.at, old.taken), z);
        }
    }
    Ok(())
}

// The fields of g merged by key with those of node x, a set, into the area at b.
fn merge_fields(
    arena: &mut [u32],
    held: &mut [u32],
    q: &mut Pass,
    g: Merging,
    x: u32,
    b: u32,
) -> Result<Merging, Refusal>
    ensures { MergesFields arena.old held.old q.old g x b arena.new held.new (merged result q.new) }
{
    let n = g.fields;
    let m = attrset::fields(arena, disjoint::set_place(arena, x));
    let most = add(n, m);
    let mut i = 0;
    let mut j = 0;
    let mut k = 0;
    // k < most ends the walk in any slice.
    while k < most && (i < n || j < m) {
        let old = Walk {
            at: g.area,
            taken: i,
            count: n,
        };
        let new = Walk {
            at: disjoint::set_place(arena, x),
            taken: j,
            count: m,
        };
        let next = next_field(arena, held, old, new);
        merge_field(arena, held, q, next, old, new, b, k)?;
        i = add(i, next.takes_old());
        j = add(j, next.takes_new());
        k += 1;
    }
    Ok(Merging {
        fields: k,
        area: b,
        ..g
    })
}

// The dyn of g with that of the set at s.
fn merge_dyn(arena: &mut [u32], q: &mut Pass, g: Merging, s: u32) -> Result<Merging, Refusal>
    ensures { MergesDyn arena.old q.old g s arena.new (merged result q.new) }
{
    if attrset::dyns(arena, s) == 0 {
        return Ok(g);
    }
    let new = attrset::dyn_type(arena, s);
    let Some(old) = g.dyn_type else {
        return Ok(Merging {
            dyn_type: Some(new),
            ..g
        });
    };
    if old == new {
        return Ok(g);
    }
    let x = arena::store_both(arena, q, OutputTy::Intersection, old, new)?;
    Ok(Merging {
        dyn_type: Some(x),
        ..g
    })
}

// The one of the two areas from h on that is not at a.
fn other_area(h: u32, a: u32) -> u32
    ensures { OtherArea h a result }
{
    if a == h { add(h, WorkSlice::AREA) } else { h }
}

// g with the set of node x: dyn first, then the fields in key order. The fields move between the areas at h and after it.
fn merge_one(
    arena: &mut [u32],
    held: &mut [u32],
    h: u32,
    q: &mut Pass,
    g: Merging,
    x: u32,
) -> Result<Merging, Refusal>
    ensures { MergesOne arena.old held.old h q.old g x arena.new held.new (merged result q.new) }
{
    let s = disjoint::set_place(arena, x);
    let d = merge_dyn(arena, q, g, s)?;
    let b = other_area(h, d.area);
    merge_fields(arena, held, q, d, x, b)
}

// The sets among the members, merged one after another.
fn merge_sets(
    arena: &mut [u32],
    held: &mut [u32],
    h: u32,
    q: &mut Pass,
    sets: &Members,
) -> Result<Merging, Refusal>
    ensures { MergesAll arena.old held.old h q.old sets.now arena.new held.new (merged result q.new) }
{
    let mut g = Merging {
        fields: 0,
        area: h,
        dyn_type: None,
    };
    for i in 0..sets.count {
        g = merge_one(arena, held, h, q, g, at(&sets.at, i))?;
    }
    Ok(g)
}

// 1 if all of the sets are open.
fn open_if_all(arena: &[u32], sets: &Members) -> u32
    ensures { OpenIfAll arena.now sets.now.at sets.now.count result }
{
    let is_open = |x: &u32| attrset::open(arena, disjoint::set_place(arena, *x)) == 1;
    u32::from(sets.at.iter().take(sets.count as usize).all(is_open))
}

// The dyn of g written after the d words from t on; how many words there are then.
fn write_dyn(words: &mut [u32], t: u32, d: u32, g: Merging) -> u32
    ensures { WritesDyn words.old t d g words.new result }
{
    match g.dyn_type {
        None => {
            put(words, place(t, d), 0);
            add(d, 1)
        }
        Some(x) => {
            put(words, place(t, d), 1);
            put(words, place(t, add(d, 1)), x);
            add(d, 2)
        }
    }
}

// Kind, fields and dyn of a set written from t on; how many words that are.
fn write_fields(words: &mut [u32], t: u32, held: &[u32], g: Merging) -> u32
    ensures { WritesFields words.old t held.now g words.new result }
{
    let n = add(g.fields, g.fields);
    set(words, t, OutputTy::AttrSet.number());
    put(words, place(t, 1), g.fields);
    arena::copy(words, add(t, 2), held, g.area, n);
    write_dyn(words, t, add(n, 2), g)
}

// x written after the k words from o on, if it is kept; how many there are then.
fn put_if(words: &mut [u32], o: u32, k: u32, x: u32, kept: bool) -> u32
    ensures { PutsIf words.old o k x kept words.new result }
{
    if !kept {
        return k;
    }
    put(words, place(o, k), x);
    add(k, 1)
}

// The keys of the n fields held at a, listed from b on.
fn list_keys(held: &mut [u32], a: u32, n: u32, b: u32)
    ensures { ListsKeys held.old a n b held.new }
{
    for i in 0..n {
        let key = held_key(held, a, i);
        put(held, place(b, i), key);
    }
}

// A walk along keys that ascend: what is left of a set's fields and of its optional keys, and whether the last key stays.
#[derive(Clone, Copy)]
struct Sieve {
    fields: Keys,
    optional: Keys,
    stays: bool,
}

// The walk at the next key, which stays where the set does not require it.
fn sieved(words: &[u32], s: Sieve, key: u32) -> Sieve
    ensures { Sieved words.now s key result }
{
    let fields = attrset::keys_from(words, s.fields, 2, key);
    if !attrset::starts(words, fields, key) {
        return Sieve {
            fields,
            stays: true,
            ..s
        };
    }
    let optional = attrset::keys_from(words, s.optional, 1, key);
    let stays = attrset::starts(words, optional, key);
    Sieve {
        fields,
        optional,
        stays,
    }
}

// Of the n keys listed from b on those stay, in place, that the set at a does not require; how many they are. One walk along the keys, the
// set's fields and its optional keys.
fn sieve_keys(words: &[u32], held: &mut [u32], b: u32, n: u32, a: u32) -> u32
    ensures { SievesKeys words.now held.old b n a held.new result }
{
    let mut s = Sieve {
        fields: attrset::field_keys(words, a),
        optional: attrset::optional_keys(words, a),
        stays: true,
    };
    let mut k = 0;
    for i in 0..n {
        let key = get(held, place(b, i));
        s = sieved(words, s, key);
        k = put_if(held, b, k, key, s.stays);
    }
    k
}

// The same for each of the sets: a key is optional only if every set allows that.
fn sieve_all(arena: &[u32], held: &mut [u32], b: u32, n: u32, sets: &Members) -> u32
    ensures { SievesAll arena.now held.old b n sets.now.at sets.now.count held.new result }
{
    let mut k = n;
    for i in 0..sets.count {
        let a = disjoint::set_place(arena, at(&sets.at, i));
        k = sieve_keys(arena, held, b, k, a);
    }
    k
}

// The optional keys of a merged set written from o on; how many there are. They are sieved in the free area at b: while a walk goes along sets in
// the arena nothing is written there.
fn write_optional(
    arena: &mut [u32],
    o: u32,
    held: &mut [u32],
    b: u32,
    g: Merging,
    sets: &Members,
) -> u32
    ensures { WritesOptional arena.old o held.old b g sets.now arena.new held.new result }
{
    list_keys(held, g.area, g.fields, b);
    let k = sieve_all(arena, held, b, g.fields, sets);
    arena::copy(arena, o, held, b, k);
    k
}

// The open flag and the optional keys of a merged set written from o on; how many keys there are.
fn write_flags(
    arena: &mut [u32],
    o: u32,
    flag: u32,
    held: &mut [u32],
    b: u32,
    g: Merging,
    sets: &Members,
) -> u32
    ensures { WritesFlags arena.old o flag held.old b g sets.now arena.new held.new result }
{
    set(arena, o, flag);
    let k = write_optional(arena, add(o, 2), held, b, g, sets);
    put(arena, place(o, 1), k);
    k
}

// The merged set, stored; the area at b is free.
fn store_merged(
    arena: &mut [u32],
    held: &mut [u32],
    b: u32,
    q: &mut Pass,
    g: Merging,
    sets: &Members,
) -> Result<u32, Refusal>
    ensures { StoresMerged arena.old held.old b q.old g sets.now arena.new held.new (given result q.new) }
{
    let t = arena::top(arena, q);
    let open = open_if_all(arena, sets);
    let len = write_fields(arena, t, held, g);
    let k = write_flags(arena, add(t, len), open, held, b, g, sets);
    arena::intern(
        arena,
        q,
        add(add(len, 2), k),
        add(add(g.fields, g.fields), k),
    )
}

// The merged set stored, after the other members.
fn merged_last(
    arena: &mut [u32],
    held: &mut [u32],
    h: u32,
    q: &mut Pass,
    g: Merging,
    sets: &Members,
    others: Members,
) -> Result<Members, Refusal>
    ensures { MergedLast arena.old held.old h (On g q.old) sets.now others arena.new held.new (listed result q.new) }
{
    let b = other_area(h, g.area);
    let x = store_merged(arena, held, b, q, g, sets);
    with_last(others, x)
}

// merge_attrset_intersection: the sets become one, last; held from h on is free for their fields.
pub fn merge_attrset_intersection(
    arena: &mut [u32],
    held: &mut [u32],
    h: u32,
    q: &mut Pass,
    m: Members,
) -> Result<Members, Refusal>
    ensures { MergesSets arena.old held.old h q.old m arena.new held.new (listed result q.new) }
{
    let sets = of_kind(arena, m, OutputTy::AttrSet, true);
    if sets.count == 0 {
        return Ok(m);
    }
    let others = of_kind(arena, m, OutputTy::AttrSet, false);
    let g = merge_sets(arena, held, h, q, &sets)?;
    merged_last(arena, held, h, q, g, &sets, others)
}
