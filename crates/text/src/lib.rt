// One line of text, read into a row of words: decimals, lists, names, and fields by their shape.
#![tactic(auto)]

pub mod kinds;

ghost use Rattle.std.specs.Prelude.{◌≡◌, [], ◌∷◌, ◌≤◌, length};
ghost use Rattle.text.specs.Reads.{Digit, Digits, Number, Word, Seek, Hex, Escaped, Fits, Next, Room, FieldRoom, ShapeRoom, Keyed, Element, Elements, Listed, Bounded};
ghost use Rattle.text.specs.Reads.{Dyned, Signed, Named, Field, Shaped};
ghost use Rattle.text.specs.Keywords.{Slot, shape_at};

// Where the reading of a name stands: not in an escape, after its backslash, or after its first digit.
#[derive(Clone, Copy)]
pub enum State {
    Plain,
    Slash,
    Digit(u32),
}

// What a byte of a written name does: it goes on to another state, or it ends a byte of the name.
#[derive(Clone, Copy)]
pub enum Step {
    Move(State),
    Put(u32),
}

// v with one more digit.
fn one_more(v: u32, b: u8) -> Option<u32>
    ensures { Digit v b result }
{
    if b < b'0' || b'9' < b {
        return None;
    }
    v.checked_mul(10)?.checked_add(u32::from(b - b'0'))
}

pub fn digits_of(s: &[u8], from: usize, to: usize) -> Option<u32>
    requires { to ≤ length s.now }
    ensures { Digits s.now from to result }
{
    let mut v = 0u32;
    for i in from..to {
        v = one_more(v, s[i])?;
    }
    Some(v)
}

// The number between from and to.
pub fn number_of(s: &[u8], from: usize, to: usize) -> Option<u32>
    requires { to ≤ length s.now }
    ensures { Number s.now from to result }
{
    if to <= from {
        return None;
    }
    if from + 1 < to && s[from] == b'0' {
        return None;
    }
    digits_of(s, from, to)
}

// Where the first sep stands between from and to; else to.
pub fn seek(s: &[u8], from: usize, to: usize, sep: u8) -> usize
    requires { (from ≤ to) × (to ≤ length s.now) }
    ensures { Seek s.now from to sep result }
{
    for i in from..to {
        if s[i] == sep {
            return i;
        }
    }
    to
}

// Whether b alone stands between from and to.
fn mark(s: &[u8], from: usize, to: usize, b: u8) -> bool
    requires { (from ≤ to) × (to ≤ length s.now) }
    ensures { Word s.now from to (b ∷ []) result }
{
    s[from..to] == [b]
}

// The value of a lower-case hex digit.
fn hex(b: u8) -> Option<u32>
    ensures { Hex b result }
{
    match b {
        b'0'..=b'9' => Some(u32::from(b - b'0')),
        b'a'..=b'f' => Some(u32::from(b - b'a') + 10),
        _ => None,
    }
}

// Whether a byte of a name is written as an escape.
fn escaped(b: u32) -> bool
    ensures { Escaped b result }
{
    matches!(b, 0..=31 | 92 | 127)
}

// A byte of a name, in this state.
fn next(state: State, b: u8) -> Option<Step>
    requires { Fits state }
    ensures { Next state b result }
{
    match state {
        State::Plain => {
            let x = u32::from(b);
            if b == b'\\' {
                Some(Step::Move(State::Slash))
            } else if escaped(x) {
                None
            } else {
                Some(Step::Put(x))
            }
        }
        State::Slash => Some(Step::Move(State::Digit(hex(b)?))),
        State::Digit(h) => {
            let x = h * 16 + hex(b)?;
            if escaped(x) { Some(Step::Put(x)) } else { None }
        }
    }
}

// The bytes of the name between from and to, written from top on.
fn name_of(s: &[u8], from: usize, to: usize, words: &mut [u32], top: usize) -> Option<usize>
    requires { Room s.now from to words.old top }
    ensures { Named s.now from to top words.old words.new result }
{
    let mut state = State::Plain;
    let mut t = top;
    for i in from..to {
        match next(state, s[i])? {
            Step::Move(q) => {
                state = q;
            }
            Step::Put(x) => {
                words[t] = x;
                t += 1;
                state = State::Plain;
            }
        }
    }
    match state {
        State::Plain => Some(t),
        _ => None,
    }
}

// A key and an id, parted by a colon.
fn keyed_of(s: &[u8], from: usize, to: usize, words: &mut [u32], top: usize) -> Option<usize>
    requires { Room s.now from to words.old top }
    ensures { Keyed s.now from to top words.old words.new result }
{
    let e = seek(s, from, to, b':');
    if e == to {
        return None;
    }
    let f = seek(s, e + 1, to, b':');
    if f != to {
        return None;
    }
    let k = number_of(s, from, e)?;
    let i = number_of(s, e + 1, f)?;
    words[top] = k;
    words[top + 1] = i;
    Some(top + 2)
}

// An element of a list whose elements take each words: a number, or a key and an id.
fn element_of(
    s: &[u8],
    from: usize,
    to: usize,
    each: usize,
    words: &mut [u32],
    top: usize,
) -> Option<usize>
    requires { Room s.now from to words.old top }
    ensures { Element s.now from to each top words.old words.new result }
{
    if each == 2 {
        return keyed_of(s, from, to, words, top);
    }
    let v = number_of(s, from, to)?;
    words[top] = v;
    Some(top + 1)
}

// The elements between from and to, parted by commas.
fn elements_of(
    s: &[u8],
    from: usize,
    to: usize,
    each: usize,
    words: &mut [u32],
    top: usize,
) -> Option<usize>
    requires { Room s.now from to words.old top }
    ensures { Elements s.now from to each top words.old words.new result }
{
    let mut i = from;
    let mut t = top;
    loop {
        let e = seek(s, i, to, b',');
        t = element_of(s, i, e, each, words, t)?;
        if e == to {
            return Some(t);
        }
        i = e + 1;
    }
}

// A list: how many elements there are, then their words.
fn list_of(
    s: &[u8],
    from: usize,
    to: usize,
    each: usize,
    words: &mut [u32],
    top: usize,
) -> Option<usize>
    requires field_room { FieldRoom s.now from to words.old top }
    requires le_each { 1 ≤ each }
    ensures { Listed s.now from to each top words.old words.new result }
{
    if mark(s, from, to, b'-') {
        words[top] = 0;
        return Some(top + 1);
    }
    let t = elements_of(s, from, to, each, words, top + 1)?;
    words[top] = ((t - (top + 1)) / each) as u32;
    Some(t)
}

// A number of at most most.
fn up_to(
    s: &[u8],
    from: usize,
    to: usize,
    most: u32,
    words: &mut [u32],
    top: usize,
) -> Option<usize>
    requires { FieldRoom s.now from to words.old top }
    ensures { Bounded s.now from to most top words.old words.new result }
{
    let v = number_of(s, from, to)?;
    if most < v {
        return None;
    }
    words[top] = v;
    Some(top + 1)
}

// An id, or `-`.
fn dyn_of(s: &[u8], from: usize, to: usize, words: &mut [u32], top: usize) -> Option<usize>
    requires { FieldRoom s.now from to words.old top }
    ensures { Dyned s.now from to top words.old words.new result }
{
    if mark(s, from, to, b'-') {
        words[top] = 0;
        return Some(top + 1);
    }
    let v = number_of(s, from, to)?;
    words[top] = 1;
    words[top + 1] = v;
    Some(top + 2)
}

// `+` is 0 and `-` is 1.
fn sign_of(s: &[u8], from: usize, to: usize, words: &mut [u32], top: usize) -> Option<usize>
    requires { FieldRoom s.now from to words.old top }
    ensures { Signed s.now from to top words.old words.new result }
{
    if mark(s, from, to, b'+') {
        words[top] = 0;
        return Some(top + 1);
    }
    if mark(s, from, to, b'-') {
        words[top] = 1;
        return Some(top + 1);
    }
    None
}

// The words of a field of a kind, written from top on. The kinds: a number, a code, a flag, a list, a dyn, a list of fields, a sign, a name.
fn field_of(
    s: &[u8],
    from: usize,
    to: usize,
    kind: u8,
    words: &mut [u32],
    top: usize,
) -> Option<usize>
    requires { FieldRoom s.now from to words.old top }
    ensures { Field s.now from to kind top words.old words.new result }
{
    match kind {
        0 => element_of(s, from, to, 1, words, top),
        1 => up_to(s, from, to, 31, words, top),
        2 => up_to(s, from, to, 1, words, top),
        3 => list_of(s, from, to, 1, words, top),
        4 => dyn_of(s, from, to, words, top),
        5 => list_of(s, from, to, 2, words, top),
        6 => sign_of(s, from, to, words, top),
        7 => name_of(s, from, to, words, top),
        _ => None,
    }
}

// The number of a kind, and the fields from from on, by its shape.
pub fn fields_of(
    s: &[u8],
    from: usize,
    to: usize,
    kinds: &[u8],
    kind: u32,
    words: &mut [u32],
    top: usize,
) -> Option<usize>
    requires shape_room { ShapeRoom s.now from to words.old top }
    requires slot { Slot kinds.now kind }
    ensures { Shaped s.now from to kind (shape_at kinds.now kind) top words.old words.new result }
{
    let a = 17 * kind as usize;
    let n = usize::from(kinds[a + 9]);
    let mut i = from;
    let mut t = top + 1;
    for k in 0..n {
        if to < i {
            return None;
        }
        let e = seek(s, i, to, b'\t');
        t = field_of(s, i, e, kinds[a + 10 + k], words, t)?;
        i = e + 1;
    }
    if i <= to {
        return None;
    }
    words[top] = kind;
    Some(t)
}
