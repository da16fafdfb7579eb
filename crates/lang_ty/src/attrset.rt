// AttrSetTy in a row: from its place on the number of fields, keys and types in turn, whether there is a dyn and which, the open flag, the
// number of optional keys, and these. Entries of a table and nodes have it alike.
ghost use Rattle.lang_ty.specs.Sets.{Fields, Key, FieldType, DynPlace, Dyns, DynType, OpenPlace, Open, Optionals, FieldKeys, OptionalKeys, KeysFrom};
ghost use Rattle.lang_ty.specs.Sets.{Starts, BehindFirst, HasField, Walked, Least, AlikeFields, WalkBehind, FieldsCover};
ghost use Rattle.std.specs.Prelude.{◌≤◌};

use cells::{add, at, get, place};

pub fn fields(words: &[u32], a: u32) -> u32
    ensures { Fields words.now a result }
{
    at(words, a)
}

pub fn key(words: &[u32], a: u32, i: u32) -> u32
    ensures { Key words.now a i result }
{
    get(words, place(a, add(add(i, i), 1)))
}

pub fn field_type(words: &[u32], a: u32, i: u32) -> u32
    ensures { FieldType words.now a i result }
{
    get(words, place(a, add(add(i, i), 2)))
}

// The place of the dyn.
pub fn dyn_place(words: &[u32], a: u32) -> u32
    ensures { DynPlace words.now a result }
{
    let n = fields(words, a);
    add(add(a, 1), add(n, n))
}

// 1 where there is a dyn, 0 where there is none.
pub fn dyns(words: &[u32], a: u32) -> u32
    ensures { Dyns words.now a result }
{
    at(words, dyn_place(words, a))
}

pub fn dyn_type(words: &[u32], a: u32) -> u32
    ensures { DynType words.now a result }
{
    get(words, place(dyn_place(words, a), 1))
}

// The place of the open flag.
pub fn open_place(words: &[u32], a: u32) -> u32
    ensures { OpenPlace words.now a result }
{
    let d = dyn_place(words, a);
    add(add(d, 1), at(words, d))
}

pub fn open(words: &[u32], a: u32) -> u32
    ensures { Open words.now a result }
{
    at(words, open_place(words, a))
}

pub fn optionals(words: &[u32], a: u32) -> u32
    ensures { Optionals words.now a result }
{
    get(words, place(open_place(words, a), 1))
}

// Keys of a list that are left to be looked at: so many, from a place on. Fields' keys stand two words apart, optional keys one.
#[derive(Clone, Copy)]
pub struct Keys {
    pub at: u32,
    pub left: u32,
}

pub fn field_keys(words: &[u32], a: u32) -> Keys
    ensures { FieldKeys words.now a result }
{
    Keys {
        at: add(a, 1),
        left: fields(words, a),
    }
}

pub fn optional_keys(words: &[u32], a: u32) -> Keys
    ensures { OptionalKeys words.now a result }
{
    let o = open_place(words, a);
    Keys {
        at: add(o, 2),
        left: get(words, place(o, 1)),
    }
}

// What is left of the keys from k on: who asks for keys that ascend walks along a list once.
pub fn keys_from(words: &[u32], ks: Keys, step: u32, k: u32) -> Keys
    ensures { KeysFrom words.now ks step k result }
{
    let mut p = ks.at;
    let mut n = ks.left;
    while 0 < n {
        if k <= at(words, p) {
            return Keys { at: p, left: n };
        }
        p = add(p, step);
        n -= 1;
    }
    Keys { at: p, left: n }
}

// Whether the first of the keys that are left is k.
pub fn starts(words: &[u32], ks: Keys, k: u32) -> bool
    ensures { Starts words.now ks k result }
{
    ks.left != 0 && at(words, ks.at) == k
}

// The keys that are left but for the first.
fn behind_first(ks: Keys, step: u32) -> Keys
    ensures { BehindFirst ks step result }
{
    if ks.left == 0 {
        return ks;
    }
    Keys {
        at: add(ks.at, step),
        left: ks.left - 1,
    }
}

pub fn has_field(words: &[u32], a: u32, k: u32) -> bool
    ensures { HasField words.now a k result }
{
    let ks = keys_from(words, field_keys(words, a), 2, k);
    starts(words, ks, k)
}

// A walk along the keys of two sets: what is left of the one's optional keys and of the other's keys, and whether the last key was among either.
#[derive(Clone, Copy)]
struct Walk {
    optional: Keys,
    other: Keys,
    covered: bool,
}

// The walk at the next key.
fn walked(words: &[u32], w: Walk, k: u32) -> Walk
    ensures { Walked words.now w k result }
{
    let before = w.other;
    let other = keys_from(words, before, 2, k);
    let left = w.optional;
    if starts(words, other, k) {
        return Walk {
            optional: left,
            other: behind_first(other, 2),
            covered: true,
        };
    }
    let optional = keys_from(words, left, 1, k);
    let covered = starts(words, optional, k);
    Walk {
        optional,
        other,
        covered,
    }
}

pub fn least(a: u32, b: u32) -> u32
    ensures { Least a b result }
{
    a.min(b)
}

// How many of the first n fields of two sets have the same keys. Sets that are compared are often alike at first, and who asks for no more than
// that needs no walk: two cells are read for each key.
fn alike_fields(words: &[u32], a: u32, b: u32, n: u32) -> u32
    ensures { AlikeFields words.now a b n result }
{
    let p = place(a, 1);
    let q = place(b, 1);
    let e = place(n, n);
    if words.len() < p + e || words.len() < q + e {
        return 0;
    }
    let mut i = 0;
    let mut r = 0;
    while r < n {
        if words[p + i] != words[q + i] {
            return r;
        }
        i += 2;
        r += 1;
    }
    r
}

// The walk behind the first r keys, which two sets share.
fn walk_behind(words: &[u32], a: u32, b: u32, m: u32, r: u32) -> Walk
    requires { r ≤ m }
    ensures { WalkBehind words.now a b m r result }
{
    let other = Keys {
        at: add(add(b, 1), add(r, r)),
        left: m - r,
    };
    Walk {
        optional: optional_keys(words, a),
        other,
        covered: true,
    }
}

// Each field of the set at a that it requires is one of the set at b.
pub fn fields_cover(words: &[u32], a: u32, b: u32) -> bool
    ensures { FieldsCover words.now a b result }
{
    let n = fields(words, a);
    let m = fields(words, b);
    let mut i = alike_fields(words, a, b, least(n, m));
    let mut w = walk_behind(words, a, b, m, i);
    while i < n {
        w = walked(words, w, key(words, a, i));
        if !w.covered {
            return false;
        }
        i += 1;
    }
    true
}
