// The set of an entry, stored once its fields and its dyn have answers.
ghost use Rattle.cells.specs.Part.{part};
ghost use Rattle.lang_ty.specs.Given.{given};
ghost use Rattle.lang_ty.specs.Nodes.{Written};
ghost use Rattle.storage.specs.Sets.{PutsTypes, PutsDyn, StoresSet};

use cells::{add, get, place, put, set};
use lang_ty::arena::{OutputTy, Pass};
use lang_ty::{arena, attrset};
use rules::Refusal;

// The answers of the n fields of the set at a, held from h on, put in place of their ids.
fn put_types(words: &mut [u32], a: u32, n: u32, held: &[u32], h: u32)
    ensures { PutsTypes words.old a n held.now h words.new }
{
    for i in 0..n {
        put(words, place(a, add(add(i, i), 2)), get(held, place(h, i)));
    }
}

// The answer of the dyn of the set at a, which has n fields, put in place of its id where there is one.
fn put_dyn(words: &mut [u32], a: u32, n: u32, dyns: u32, held: &[u32], h: u32)
    ensures { PutsDyn words.old a n dyns held.now h words.new }
{
    if dyns != 0 {
        put(words, place(a, add(add(n, n), 2)), get(held, place(h, n)));
    }
}

// The set of the entry at a, stored, with the answers of its fields and its dyn, held from h on, in place of their ids.
pub fn store_set(
    table: &[u32],
    a: u32,
    arena: &mut [u32],
    held: &[u32],
    h: u32,
    q: &mut Pass,
) -> Result<u32, Refusal>
    ensures { StoresSet table.now a arena.old held.now h q.old arena.new (given result q.new) }
{
    let n = attrset::fields(table, a);
    let d = attrset::dyns(table, a);
    let k = attrset::optionals(table, a);
    let two = add(n, n);
    let len = add(add(two, k), add(d, 4));
    let t = arena::top(arena, q);
    let b = add(t, 1);
    set(arena, t, OutputTy::AttrSet.number());
    arena::copy(arena, b, table, a, len);
    put_types(arena, b, n, held, h);
    put_dyn(arena, b, n, d, held, h);
    arena::intern(arena, q, add(len, 1), add(two, k))
}
