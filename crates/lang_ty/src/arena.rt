// TypeArena: node i is arena[arena[i]..arena[i + 1]], the number of its kind and then its contents. A new node's row is written after
// the last one, compared with the rows of its bucket, and kept by a greater count or dropped by none.
ghost use Rattle.lang_ty.specs.Given.{given};
ghost use Rattle.lang_ty.specs.Nodes.{code, Word, Kind, Is, Count, Member, Same, RowIs, Hit, Sought, Kept, Interned, Fresh, Top, Written, Copied, Stored, Listed};
ghost use Rattle.std.specs.Prelude.{◌≡◌, ◌≤◌, [], ◌∷◌};
ghost use Rattle.cells.specs.Part.{part};

use crate::index;
use cells::{add, at, get, place, put, set};
use layout::ArenaSlice;
use rules::Refusal;

// The kinds, in OutputTy's order: a kind's number is the first word of its rows.
#[derive(Clone, Copy, PartialEq, Eq)]
pub enum OutputTy {
    TyVar,
    Primitive,
    List,
    Lambda,
    AttrSet,
    Union,
    Intersection,
    Named,
    Neg,
    Bottom,
    Top,
}

impl OutputTy {
    pub fn number(self) -> u32
        ensures { result ≡ code self }
    {
        self as u32
    }

    // The kind whose number w is; a number past the last is Top, as the last is.
    pub fn of_word(w: u32) -> Self
        ensures { (w ≤ 10 → code result ≡ w) × (10 ≤ w → code result ≡ 10) }
    {
        match w {
            0 => OutputTy::TyVar,
            1 => OutputTy::Primitive,
            2 => OutputTy::List,
            3 => OutputTy::Lambda,
            4 => OutputTy::AttrSet,
            5 => OutputTy::Union,
            6 => OutputTy::Intersection,
            7 => OutputTy::Named,
            8 => OutputTy::Neg,
            9 => OutputTy::Bottom,
            _ => OutputTy::Top,
        }
    }
}

// What a pass counts: nodes, their cells, operations; and its marks.
#[derive(Clone, Copy)]
pub struct Pass {
    pub nodes: u32,
    pub cells: u32,
    pub ops: u32,
    pub sorted: bool,
    pub bailed: bool,
}

impl Pass {
    pub const NODES: u32 = 4096;

    pub const CELLS: u32 = 16384;

    pub const MEMBERS: u32 = 128;
}

// What a root is answered with: passes, operations of both, the sorted mark of either, the bailed mark of either, and the node.
#[derive(Clone, Copy)]
pub struct Shown {
    pub passes: u32,
    pub ops: u32,
    pub sorted: bool,
    pub bailed: bool,
    pub node: u32,
}

// The word i of node x.
pub fn word(arena: &[u32], x: u32, i: u32) -> u32
    ensures { Word arena.now x i result }
{
    get(arena, place(at(arena, x), i))
}

pub fn kind(arena: &[u32], x: u32) -> OutputTy
    ensures { Kind arena.now x (code result) }
{
    OutputTy::of_word(word(arena, x, 0))
}

pub fn is(arena: &[u32], k: OutputTy, x: u32) -> bool
    ensures { Is arena.now (code k) x result }
{
    word(arena, x, 0) == k.number()
}

// How many members a union or an intersection has; a node of another kind has none.
pub fn count(arena: &[u32], x: u32) -> u32
    ensures { Count arena.now x result }
{
    match kind(arena, x) {
        OutputTy::Union | OutputTy::Intersection => word(arena, x, 1),
        _ => 0,
    }
}

// Member i of a union or an intersection.
pub fn member(arena: &[u32], x: u32, i: u32) -> u32
    ensures { Member arena.now x i result }
{
    word(arena, x, add(i, 2))
}

// Whether the n words from a on are the n words from b on.
fn same(words: &[u32], a: u32, b: u32, n: u32) -> bool
    ensures { Same words.now a b n result }
{
    for i in 0..n {
        if get(words, place(a, i)) != get(words, place(b, i)) {
            return false;
        }
    }
    true
}

// Whether row i is the len words from top on.
fn row_is(arena: &[u32], i: u32, top: u32, len: u32) -> bool
    ensures { RowIs arena.now i top len result }
{
    let a = at(arena, i);
    let e = get(arena, place(i, 1));
    e == add(a, len) && same(arena, top, a, len)
}

// Whether row x is the len words from top on, whose hash is h.
fn hit(arena: &[u32], x: u32, h: u32, top: u32, len: u32) -> bool
    ensures { Hit arena.now x h top len result }
{
    get(arena, place(ArenaSlice::HASHES, x)) == h && row_is(arena, x, top, len)
}

// The node whose row is the len words from top on, whose hash is h: the links of its bucket are followed. They fall; one that does not ends the
// search, so that it ends in any slice. p is a link as it was read, a place of the slice: nothing stands between one link and the next.
fn find(arena: &[u32], h: u32, top: u32, len: u32) -> Option<u32>
    ensures { Sought arena.now h top len result }
{
    let mut p = index::newest(arena, h) as usize;
    while ArenaSlice::EARLIER as usize <= p {
        let x = (p - ArenaSlice::EARLIER as usize) as u32;
        if hit(arena, x, h, top, len) {
            return Some(x);
        }
        let e = get(arena, p) as usize;
        if p <= e {
            return None;
        }
        p = e;
    }
    None
}

// The new row, whose hash is h, as the next node, with its cells.
fn keep(arena: &mut [u32], q: &mut Pass, h: u32, end: u32, cells: u32) -> Result<u32, Refusal>
    ensures { Kept arena.old q.old h end cells arena.new (given result q.new) }
{
    let n = q.nodes;
    if Pass::NODES <= n {
        return Err(Refusal::Nodes);
    }
    let sum = add(q.cells, cells);
    if Pass::CELLS < sum {
        return Err(Refusal::Cells);
    }
    put(arena, place(n, 1), end);
    index::link(arena, h, n);
    q.nodes = n + 1;
    q.cells = sum;
    Ok(n)
}

// TypeArena::intern: the node whose row is the len words after the last row: the number of the one that is there, or the next.
pub fn intern(arena: &mut [u32], q: &mut Pass, len: u32, cells: u32) -> Result<u32, Refusal>
    ensures { Interned arena.old q.old len cells arena.new (given result q.new) }
{
    let top = at(arena, q.nodes);
    let h = index::hash(arena, top, len);
    match find(arena, h, top, len) {
        Some(i) => Ok(i),
        None => keep(arena, q, h, add(top, len), cells),
    }
}

// TypeArena::new: no nodes, and none in any bucket. Links and hashes are written before they are read, so those of another pass stay.
pub fn fresh(arena: &mut [u32])
    ensures { Fresh arena.old arena.new }
{
    cells::clear(arena, ArenaSlice::NEWEST, ArenaSlice::BUCKETS);
    set(arena, 0, ArenaSlice::WORDS);
}

// The first word that no row has.
pub fn top(arena: &[u32], q: &Pass) -> u32
    ensures { Top arena.now q.now result }
{
    at(arena, q.nodes)
}

// Two numbers, written from t on.
fn write_two(words: &mut [u32], t: u32, a: u32, b: u32)
    ensures { Written t words.old words.new (a ∷ b ∷ []) }
{
    set(words, t, a);
    put(words, place(t, 1), b);
}

// A node of its kind alone: Bottom or Top.
pub fn store_leaf(arena: &mut [u32], q: &mut Pass, kind: OutputTy) -> Result<u32, Refusal>
    ensures { Stored (code kind ∷ []) 0 arena.old q.old arena.new (given result q.new) }
{
    let t = top(arena, q);
    set(arena, t, kind.number());
    intern(arena, q, 1, 0)
}

// A node of a kind and one number: a variable, a primitive, a list, a negation.
pub fn store_one(arena: &mut [u32], q: &mut Pass, kind: OutputTy, a: u32) -> Result<u32, Refusal>
    ensures { Stored (code kind ∷ a ∷ []) 0 arena.old q.old arena.new (given result q.new) }
{
    let t = top(arena, q);
    write_two(arena, t, kind.number(), a);
    intern(arena, q, 2, 0)
}

// A node of a kind and two numbers: a function, a named type.
pub fn store_two(
    arena: &mut [u32],
    q: &mut Pass,
    kind: OutputTy,
    a: u32,
    b: u32,
) -> Result<u32, Refusal>
    ensures { Stored (code kind ∷ a ∷ b ∷ []) 0 arena.old q.old arena.new (given result q.new) }
{
    let t = top(arena, q);
    write_two(arena, t, kind.number(), a);
    put(arena, place(t, 2), b);
    intern(arena, q, 3, 0)
}

// A union or an intersection of two members.
pub fn store_both(
    arena: &mut [u32],
    q: &mut Pass,
    kind: OutputTy,
    a: u32,
    b: u32,
) -> Result<u32, Refusal>
    ensures { Stored (code kind ∷ 2 ∷ a ∷ b ∷ []) 2 arena.old q.old arena.new (given result q.new) }
{
    let t = top(arena, q);
    write_two(arena, t, kind.number(), 2);
    write_two(arena, add(t, 2), a, b);
    intern(arena, q, 4, 2)
}

// Number i from a on in another slice, written to place i from t on.
fn copy_one(words: &mut [u32], t: u32, from: &[u32], a: u32, i: u32)
    ensures { Copied t words.old from.now a i words.new }
{
    put(words, place(t, i), get(from, place(a, i)));
}

// The n numbers from a on in another slice, written from t on.
pub fn copy(words: &mut [u32], t: u32, from: &[u32], a: u32, n: u32)
    ensures { Written t words.old words.new (part from.now a n) }
{
    for i in 0..n {
        copy_one(words, t, from, a, i);
    }
}

// A union or an intersection of the n numbers from a on in another slice; 7 where they are too many.
pub fn store_list(
    arena: &mut [u32],
    q: &mut Pass,
    kind: OutputTy,
    from: &[u32],
    a: u32,
    n: u32,
) -> Result<u32, Refusal>
    ensures { Listed (code kind) from.now a n arena.old q.old arena.new (given result q.new) }
{
    if Pass::MEMBERS < n {
        return Err(Refusal::Members);
    }
    let t = top(arena, q);
    write_two(arena, t, kind.number(), n);
    copy(arena, add(t, 2), from, a, n);
    intern(arena, q, n + 2, n)
}
