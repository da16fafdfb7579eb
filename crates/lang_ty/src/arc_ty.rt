// OutputTy's children and order.
ghost use Rattle.lang_ty.specs.Nodes.{code};
ghost use Rattle.lang_ty.specs.Orders.{FirstChild, Children, ChildAt, Numbers, SetItems, SetRest, SetItem, PlainItems, PlainItem, ListItem, Items, ItemAt, Plainly, ComparedAt, Compared};

use crate::arena::{OutputTy, kind, word};
use crate::attrset;
use crate::disjoint::set_place;
use cells::{add, get, place};
use std::cmp::Ordering;

// How many children node x has.
pub fn children(arena: &[u32], x: u32) -> u32
    ensures { Children arena.now x result }
{
    match kind(arena, x) {
        OutputTy::AttrSet => {
            let a = set_place(arena, x);
            add(attrset::fields(arena, a), attrset::dyns(arena, a))
        }
        OutputTy::Lambda => 2,
        OutputTy::List | OutputTy::Named | OutputTy::Neg => 1,
        _ => crate::arena::count(arena, x),
    }
}

// The word of a row from which on the children of a node of kind k stand; not of a set.
fn first_child(k: OutputTy) -> u32
    ensures { FirstChild (code k) result }
{
    match k {
        OutputTy::List | OutputTy::Lambda | OutputTy::Neg => 1,
        _ => 2,
    }
}

// Child i of node x, from left to right: fields, then dyn.
pub fn child(arena: &[u32], x: u32, i: u32) -> u32
    ensures { ChildAt arena.now x i result }
{
    let k = kind(arena, x);
    match k {
        OutputTy::AttrSet => {
            let a = set_place(arena, x);
            if i < attrset::fields(arena, a) {
                return attrset::field_type(arena, a, i);
            }
            attrset::dyn_type(arena, a)
        }
        _ => word(arena, x, add(i, first_child(k))),
    }
}

// What two nodes are compared by, one after another: a list's end comes before anything that goes on.
#[derive(Clone, Copy)]
enum Item {
    End,
    Num(u32),
    Child(u32),
}

fn compare_numbers(a: u32, b: u32) -> Ordering
    ensures { Numbers a b result }
{
    a.cmp(&b)
}

// How many items the set at a has: its fields and their end, dyn or none, open, the optional keys and their end.
fn set_items(words: &[u32], a: u32) -> u32
    ensures { SetItems words.now a result }
{
    let n = attrset::fields(words, a);
    add(add(add(n, n), 4), attrset::optionals(words, a))
}

// Item i of the set at a, after its fields and their end.
fn set_rest(words: &[u32], a: u32, i: u32) -> Item
    ensures { SetRest words.now a i result }
{
    if i == 0 {
        if attrset::dyns(words, a) == 0 {
            return Item::End;
        }
        return Item::Child(attrset::dyn_type(words, a));
    }
    if i == 1 {
        return Item::Num(attrset::open(words, a));
    }
    if i < add(attrset::optionals(words, a), 2) {
        return Item::Num(get(words, place(attrset::open_place(words, a), i)));
    }
    Item::End
}

// Item i of the set at a.
fn set_item(words: &[u32], a: u32, i: u32) -> Item
    ensures { SetItem words.now a i result }
{
    let n = attrset::fields(words, a);
    let m = add(n, n);
    if i == m {
        return Item::End;
    }
    if m < i {
        return set_rest(words, a, i - m - 1);
    }
    let w = get(words, place(a, add(i, 1)));
    if i % 2 == 0 {
        return Item::Num(w);
    }
    Item::Child(w)
}

// How many items a node of kind k has besides its kind; not of a set or a list of members.
fn plain_items(k: OutputTy) -> u32
    ensures { PlainItems (code k) result }
{
    match k {
        OutputTy::Lambda | OutputTy::Named => 2,
        OutputTy::Bottom | OutputTy::Top => 0,
        _ => 1,
    }
}

// How many items node x has besides its kind.
fn items(arena: &[u32], x: u32) -> u32
    ensures { Items arena.now x result }
{
    let k = kind(arena, x);
    match k {
        OutputTy::AttrSet => set_items(arena, set_place(arena, x)),
        OutputTy::Union | OutputTy::Intersection => add(word(arena, x, 1), 1),
        _ => plain_items(k),
    }
}

// Item i of a node of kind k, whose word it is; not of a set or a list of members.
fn plain_item(k: OutputTy, i: u32, w: u32) -> Item
    ensures { PlainItem (code k) i w result }
{
    match k {
        OutputTy::TyVar | OutputTy::Primitive => Item::Num(w),
        OutputTy::Named => {
            if i == 0 {
                return Item::Num(w);
            }
            Item::Child(w)
        }
        _ => Item::Child(w),
    }
}

// Item i of a union or an intersection.
fn list_item(arena: &[u32], x: u32, i: u32) -> Item
    ensures { ListItem arena.now x i result }
{
    if i < word(arena, x, 1) {
        return Item::Child(word(arena, x, add(i, 2)));
    }
    Item::End
}

// Item i of node x.
fn item_at(arena: &[u32], x: u32, i: u32) -> Item
    ensures { ItemAt arena.now x i result }
{
    let k = kind(arena, x);
    match k {
        OutputTy::AttrSet => set_item(arena, set_place(arena, x), i),
        OutputTy::Union | OutputTy::Intersection => list_item(arena, x, i),
        _ => plain_item(k, i, word(arena, x, add(i, 1))),
    }
}

// Two items, the first no child; an end comes first, a number before a child.
fn compare_plain(a: Item, b: Item) -> Ordering
    ensures { Plainly a b result }
{
    match a {
        Item::End => match b {
            Item::End => Ordering::Equal,
            Item::Num(_) => Ordering::Less,
            Item::Child(_) => Ordering::Less,
        },
        Item::Num(x) => match b {
            Item::End => Ordering::Greater,
            Item::Num(y) => compare_numbers(x, y),
            Item::Child(_) => Ordering::Less,
        },
        Item::Child(_) => Ordering::Greater,
    }
}

// Item i of nodes a and b.
#[cycle(compare_compare_item)]
fn compare_item(arena: &[u32], a: u32, b: u32, i: u32) -> Ordering
    ensures { ComparedAt arena.now a b i result }
{
    let s = item_at(arena, a, i);
    let t = item_at(arena, b, i);
    match s {
        Item::End => compare_plain(s, t),
        Item::Num(_) => compare_plain(s, t),
        Item::Child(x) => match t {
            Item::End => Ordering::Greater,
            Item::Num(_) => Ordering::Greater,
            Item::Child(y) => {
                if x == y {
                    return Ordering::Equal;
                }
                if a <= x {
                    return Ordering::Equal;
                }
                compare(arena, x, y)
            }
        },
    }
}

// OutputTy::cmp in the order of the rules: by kind, then item by item, children by this same order; a child has a smaller number.
#[cycle(compare_compare_item)]
pub fn compare(arena: &[u32], a: u32, b: u32) -> Ordering
    ensures { Compared arena.now a b result }
{
    let j = kind(arena, a).number();
    let k = kind(arena, b).number();
    if j != k {
        return compare_numbers(j, k);
    }
    let n = items(arena, a);
    let m = items(arena, b);
    let l = attrset::least(n, m);
    for i in 0..l {
        match compare_item(arena, a, b, i) {
            Ordering::Equal => {}
            decided => {
                return decided;
            }
        }
    }
    compare_numbers(n, m)
}
