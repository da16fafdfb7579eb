// The kinds of rows, and the row of a line.
ghost use Rattle.rules.specs.Table.{kinds};
ghost use Rattle.text.specs.Reads.{FieldRoom, Row};
ghost use Rattle.table.specs.Rows.{KindOf, Kinds};

use text::kinds;

// The kinds of entries that hold ids or keys, and the frozen one.
#[derive(Clone, Copy, PartialEq, Eq)]
pub enum Kind {
    Var,
    List,
    Fn,
    Set,
    Neg,
    Named,
    Inter,
    Union,
    Frozen,
    // an entry without ids and keys, or no entry
    Other,
}

// The kind that a row's number names.
pub fn kind_of(number: u32) -> Kind
    ensures { KindOf number result }
{
    match number {
        2 => Kind::Var,
        5 => Kind::List,
        6 => Kind::Fn,
        7 => Kind::Set,
        8 => Kind::Neg,
        9 => Kind::Named,
        10 => Kind::Inter,
        11 => Kind::Union,
        12 => Kind::Frozen,
        _ => Kind::Other,
    }
}

// The row of the line between from and to, written from top on. The kinds are lent: to lay them out for each line takes time.
pub fn row_of(
    s: &[u8],
    from: usize,
    to: usize,
    forms: &[u8],
    words: &mut [u32],
    top: usize,
) -> Option<usize>
    requires field_room { FieldRoom s.now from to words.old top }
    requires kinds { Kinds forms.now }
    ensures { Row kinds s.now from to top words.old words.new result }
{
    kinds::row_of(s, from, to, forms, 16, words, top)
}
