// The rules' kinds of lines as data, for readers and writers alike. A kind has 17 bytes: the length of its keyword, the keyword in 7, the section
// of a table that it belongs to, the number of its fields, and what stands in each in 7; blanks fill up.
ghost use Rattle.std.specs.Prelude.{◌≤◌, length};
ghost use Rattle.text.specs.Reads.{FieldRoom, Word, Row};
ghost use Rattle.text.specs.Keywords.{Byte, Slot, Slots, word_at, kinds_in, KindOf};

use crate::{fields_of, seek};

// The lines of a table.
pub const TABLE: [u8; 272] = *b"\
    \x06budget \x00\x01\x00      \
    \x04name   \x01\x01\x07      \
    \x03var    \x02\x02\x03\x03     \
    \x04prim   \x02\x01\x01      \
    \x05tyvar  \x02\x01\x00      \
    \x04list   \x02\x01\x00      \
    \x02fn     \x02\x02\x00\x00     \
    \x03set    \x02\x04\x05\x04\x02\x03   \
    \x03neg    \x02\x01\x00      \
    \x05named  \x02\x02\x00\x00     \
    \x05inter  \x02\x02\x00\x00     \
    \x05union  \x02\x02\x00\x00     \
    \x06frozen \x02\x00       \
    \x04pair   \x03\x02\x00\x00     \
    \x04mark   \x04\x01\x00      \
    \x04root   \x05\x02\x00\x06     ";

// The nodes of a listing.
pub const NODES: [u8; 187] = *b"\
    \x05tyvar  \x00\x01\x00      \
    \x04prim   \x00\x01\x01      \
    \x04list   \x00\x01\x00      \
    \x02fn     \x00\x02\x00\x00     \
    \x03set    \x00\x04\x05\x04\x02\x03   \
    \x05union  \x00\x01\x03      \
    \x05inter  \x00\x01\x03      \
    \x05named  \x00\x02\x00\x00     \
    \x03neg    \x00\x01\x00      \
    \x06bottom \x00\x00       \
    \x03top    \x00\x00       ";

// The other lines of a listing.
pub const HEADS: [u8; 51] = *b"\
    \x07answers\x00\x01\x00      \
    \x04root   \x00\x07\x00\x06\x00\x00\x02\x02\x00\
    \x07refused\x00\x03\x00\x06\x00    ";

// What stands at i; 0 past the end.
pub fn at(s: &[u8], i: usize) -> u8
    ensures { Byte s.now i result }
{
    s.get(i).copied().unwrap_or(0)
}

// Whether the keyword of kind i stands between from and to.
fn keyword(kinds: &[u8], i: u32, s: &[u8], from: usize, to: usize) -> bool
    requires from_le_to { (from ≤ to) × (to ≤ length s.now) }
    requires slot { Slot kinds.now i }
    ensures { Word s.now from to (word_at kinds.now i) result }
{
    let a = 17 * i as usize;
    let n = usize::from(kinds[a]);
    s[from..to] == kinds[a + 1..a + 1 + n]
}

// The first of n kinds whose keyword stands between from and to.
fn kind_of(kinds: &[u8], n: u32, s: &[u8], from: usize, to: usize) -> Option<u32>
    requires from_le_to { (from ≤ to) × (to ≤ length s.now) }
    requires slots { Slots kinds.now n }
    ensures { KindOf kinds.now n s.now from to result }
{
    for i in 0..n {
        if keyword(kinds, i, s, from, to) {
            return Some(i);
        }
    }
    None
}

// The row of the line between from and to, by n kinds, written from top on.
pub fn row_of(
    s: &[u8],
    from: usize,
    to: usize,
    kinds: &[u8],
    n: u32,
    words: &mut [u32],
    top: usize,
) -> Option<usize>
    requires field_room { FieldRoom s.now from to words.old top }
    requires slots { Slots kinds.now n }
    ensures { Row (kinds_in kinds.now n) s.now from to top words.old words.new result }
{
    let k = seek(s, from, to, 9);
    let i = kind_of(kinds, n, s, from, k)?;
    fields_of(s, k + 1, to, kinds, i, words, top)
}
