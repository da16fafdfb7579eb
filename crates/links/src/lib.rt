// Links from each entry of a table to every id in it, held in the working slice, so that chains of bounds and children can be followed backwards.
#![tactic(auto)]

ghost use Rattle.std.specs.Prelude.{◌≡◌, [], ◌∷◌};
ghost use Rattle.links.specs.Links.{LinksTo, LinksEach, LinksList, LinksBounds, LinksSet, LinksEntry, LinksAll};

use cells::{add, at, get, place, put};
use lang_ty::attrset;
use layout::LinkSlice;
use storage::entries;
use storage::entries::Entry;
use storage::given::Canon;

// A link from x to y, the one after link n; its number.
fn link(work: &mut [u32], n: u32, x: u32, y: u32) -> u32
    ensures { LinksTo work.old n x (y ∷ []) work.new result }
{
    let e = add(n, 1);
    let last = get(work, place(LinkSlice::HEAD, y));
    put(work, place(LinkSlice::NEXT, e), last);
    put(work, place(LinkSlice::FROM, e), x);
    put(work, place(LinkSlice::HEAD, y), e);
    e
}

// The links so far: the slice that holds them, and how many there are.
#[derive(Drop)]
struct Chains<'a> {
    work: &'a mut [u32],
    n: u32,
}

impl<'a> Chains<'a> {
    fn add(&mut self, x: u32, y: u32)
        ensures same { self.new.work.ghost_name ≡ self.old.work.ghost_name }
        ensures made { LinksTo self.old.work.now self.old.n x (y ∷ []) self.new.work.now self.new.n }
    {
        self.n = link(self.work, self.n, x, y);
    }

    // Links from x to each of the k ids that stand from a on, step cells apart.
    fn add_each(&mut self, table: &[u32], x: u32, a: u32, step: u32, k: u32)
        ensures same { self.new.work.ghost_name ≡ self.old.work.ghost_name }
        ensures made { LinksEach table.now self.old.work.now self.old.n x a step k self.new.work.now self.new.n }
    {
        let mut p = a;
        for i in 0..k {
            self.add(x, at(table, p));
            p = add(p, step);
        }
    }

    // Links from x to the ids of the list at a: their number stands there, and they after it.
    fn add_list(&mut self, table: &[u32], x: u32, a: u32)
        ensures same { self.new.work.ghost_name ≡ self.old.work.ghost_name }
        ensures made { LinksList table.now self.old.work.now self.old.n x a self.new.work.now self.new.n }
    {
        self.add_each(table, x, add(a, 1), 1, at(table, a));
    }

    // Links from a variable to its bounds.
    fn add_bounds(&mut self, table: &[u32], x: u32, v: u32)
        ensures same { self.new.work.ghost_name ≡ self.old.work.ghost_name }
        ensures made { LinksBounds table.now self.old.work.now self.old.n x v self.new.work.now self.new.n }
    {
        self.add_list(table, x, v);
        self.add_list(table, x, entries::uppers(table, v));
    }

    // Links from a set to its fields' types and its dyn.
    fn add_set(&mut self, table: &[u32], x: u32, a: u32)
        ensures same { self.new.work.ghost_name ≡ self.old.work.ghost_name }
        ensures made { LinksSet table.now self.old.work.now self.old.n x a self.new.work.now self.new.n }
    {
        self.add_each(table, x, add(a, 2), 2, attrset::fields(table, a));
        self.add_list(table, x, attrset::dyn_place(table, a));
    }

    fn add_two(&mut self, x: u32, y: u32, z: u32)
        ensures same { self.new.work.ghost_name ≡ self.old.work.ghost_name }
        ensures made { LinksTo self.old.work.now self.old.n x (y ∷ z ∷ []) self.new.work.now self.new.n }
    {
        self.add(x, y);
        self.add(x, z);
    }

    // Links from entry x to every id in it.
    fn add_entry(&mut self, table: &[u32], c: Canon, x: u32)
        ensures same { self.new.work.ghost_name ≡ self.old.work.ghost_name }
        ensures made { LinksEntry table.now self.old.work.now c self.old.n x self.new.work.now self.new.n }
    {
        match entries::entry_at(table, c, x) {
            Entry::Variable(v) => self.add_bounds(table, x, v),
            Entry::Primitive(_) | Entry::TyVar(_) | Entry::Frozen => {}
            Entry::List(y) | Entry::Neg(y) | Entry::Named(_, y) => self.add(x, y),
            Entry::Lambda(y, z) | Entry::Inter(y, z) | Entry::Union(y, z) => self.add_two(x, y, z),
            Entry::AttrSet(a) => self.add_set(table, x, a),
        }
    }

    // The links of every entry.
    fn of_all(table: &[u32], work: &'a mut [u32], c: Canon) -> Chains<'a>
        ensures same { result.work.ghost_name ≡ work.entry.ghost_name }
        ensures made { LinksAll table.now work.old c result.work.now result.n }
    {
        let mut chains = Chains { work, n: 0 };
        for x in 0..c.count {
            chains.add_entry(table, c, x);
        }
        chains
    }
}

// The links of every entry; how many there are.
pub fn link_all(table: &[u32], work: &mut [u32], c: Canon) -> u32
    ensures { LinksAll table.now work.old c work.new result }
{
    let chains = Chains::of_all(table, work, c);
    chains.n
}
