// What lies where in the lent slices, and how long each of them is. Nothing else knows: a length that changes is changed here, and in
// specs/Layout.antt, which has the same numbers for the contracts.
#![tactic(auto)]

ghost use Rattle.std.specs.Prelude.{◌≡◌};
ghost use Rattle.layout.specs.Layout.{area_length, heads_at, negated_at, TableStated, PassStated, IndexStated, LinksStated, OthersStated, LengthsStated};

// A table that was read: for each entry its representative, whether it is marked, and whether the pass preserves it; then where each line's
// row begins, and the rows. A row's beginning is a place of the slice.
#[derive(Clone, Copy)]
pub struct TableSlice {}

impl TableSlice {
    pub const MARKS: u32 = 2048;

    pub const PRESERVED: u32 = 4096;

    pub const ROWS: u32 = 6144;

    pub const WORDS: u32 = 11842;

    pub const LENGTH: usize = 77378;
}

// The nodes of a pass: where each node's row begins, and where the last ends; the store's index; then the rows. In the index NEWEST has for each
// bucket the place of its newest node's link, or 0, and EARLIER has the links: for each node the place of the link of the newest before it of the
// same bucket, or 0. HASHES has the hash of each node's row.
#[derive(Clone, Copy)]
pub struct ArenaSlice {}

impl ArenaSlice {
    pub const EARLIER: u32 = 4097;

    pub const HASHES: u32 = 8193;

    pub const NEWEST: u32 = 12289;

    pub const BUCKETS: u32 = 256;

    pub const WORDS: u32 = 12545;

    pub const LENGTH: usize = 57601;
    // recheck reads the lines of the old listing into it, one at a time, before any run
    pub const LINE: usize = 65536;
}

// What a pass works with: a key for each id and polarity, polarity bits, marks of ids seen, two cells that nothing uses, for each node what a
// negation remembers of it, and lists held on the way.
#[derive(Clone, Copy)]
pub struct WorkSlice {}

impl WorkSlice {
    pub const BITS: u32 = 4096;

    pub const SEEN: u32 = 6144;

    pub const COUNTED_NODES: u32 = 8192;

    pub const COUNTED_CELLS: u32 = 8193;

    pub const NEGATED: u32 = 8194;

    pub const HELD: u32 = 12290;
    // a merge holds its fields in one of two areas of this length, a key and a type each
    pub const AREA: u32 = 2048;

    pub const LENGTH: usize = 45058;
}

// The same slice while a root's lines are written: each node's number in the listing and 1, and from ORDER on the nodes by their numbers.
#[derive(Clone, Copy)]
pub struct WalkSlice {}

impl WalkSlice {
    pub const ORDER: u32 = 8192;
}

// The same slice before any run, while recheck looks for the roots that an edit reaches. A link goes from an entry to an id that stands in it.
// Links are numbered from 1, so 0 is none: HEAD has the last link to each entry, NEXT the link to the same entry before it, FROM the entry that
// it goes from. MARKS and QUEUE have the entries that are reached.
#[derive(Clone, Copy)]
pub struct LinkSlice {}

impl LinkSlice {
    pub const HEAD: u32 = 0;

    pub const NEXT: u32 = 2048;

    pub const FROM: u32 = 10241;

    pub const MARKS: u32 = 18434;

    pub const QUEUE: u32 = 20482;
}

// The old table in recheck has no facts. In their place lie the places where each root's old lines begin, and where the last ends; then 1 for
// each root that is redone.
#[derive(Clone, Copy)]
pub struct SpanSlice {}

impl SpanSlice {
    pub const REDONE: u32 = 65;
}

// The text, until it is known to fit the output.
#[derive(Clone, Copy)]
pub struct DraftSlice {}

impl DraftSlice {
    pub const LENGTH: usize = 65536;
}

// The numbers above are those that the contracts name.
pub fn stated()
    ensures table { TableStated TableSlice.MARKS TableSlice.PRESERVED TableSlice.ROWS TableSlice.WORDS }
    ensures pass { PassStated ArenaSlice.WORDS WorkSlice.BITS WorkSlice.SEEN WorkSlice.HELD }
    ensures index { IndexStated ArenaSlice.EARLIER ArenaSlice.HASHES ArenaSlice.NEWEST ArenaSlice.BUCKETS }
    ensures heads { LinkSlice.HEAD ≡ heads_at }
    ensures links { LinksStated LinkSlice.NEXT LinkSlice.FROM LinkSlice.MARKS LinkSlice.QUEUE }
    ensures others { OthersStated WorkSlice.COUNTED_NODES WorkSlice.COUNTED_CELLS SpanSlice.REDONE ArenaSlice.LINE }
    ensures negated { WorkSlice.NEGATED ≡ negated_at }
    ensures area { WorkSlice.AREA ≡ area_length }
    ensures lengths { LengthsStated TableSlice.LENGTH ArenaSlice.LENGTH WorkSlice.LENGTH DraftSlice.LENGTH }
{}
