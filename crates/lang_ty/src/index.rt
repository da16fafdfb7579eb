// The store's index, where the Rust has a hash map: the nodes in buckets by the hashes of their rows, and a bucket's nodes linked, newest first.
// A node is told by the place of its link, so that who follows links reads one cell for each; 0 is none.
ghost use Rattle.lang_ty.specs.Buckets.{Mixed, Hashed, BucketPlace, Newest, Linked};

use cells::{add, get, place, put};
use layout::ArenaSlice;

// One more word in a hash of 32 bits.
fn mixed(h: u32, x: u32) -> u32
    ensures { Mixed h x result }
{
    ((h as u64 + x as u64) * 1640531527 % 4294967296) as u32
}

// The hash of a row, the n words from a on.
pub fn hash(words: &[u32], a: u32, n: u32) -> u32
    ensures { Hashed words.now a n result }
{
    let mut h = 0;
    for i in 0..n {
        h = mixed(h, get(words, place(a, i)));
    }
    h
}

// Where the bucket of a hash is told, by the hash's first 8 bits.
fn bucket_place(h: u32) -> usize
    ensures { BucketPlace h result }
{
    place(ArenaSlice::NEWEST, h / 16777216)
}

// The newest node of that bucket.
pub fn newest(arena: &[u32], h: u32) -> u32
    ensures { Newest arena.now h result }
{
    get(arena, bucket_place(h))
}

// Node x, whose row has hash h, as the newest of its bucket.
pub fn link(arena: &mut [u32], h: u32, x: u32)
    ensures { Linked arena.old h x arena.new }
{
    let i = newest(arena, h);
    put(arena, place(ArenaSlice::EARLIER, x), i);
    put(arena, place(ArenaSlice::HASHES, x), h);
    put(arena, bucket_place(h), add(ArenaSlice::EARLIER, x));
}
