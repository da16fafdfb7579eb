// Text into a lent slice.
ghost use Rattle.std.specs.Prelude.{◌≡◌, [], ◌∷◌, set};
ghost use Rattle.rules.specs.Text.{tab, decimal, field_text, a_sign};
ghost use Rattle.listing.specs.Writes.{Writes, Wrote, WroteKeyword};

use text::kinds;

// A slice, and the position of the next byte: a byte is put where the slice reaches, and the position goes on past its end.
#[derive(Drop)]
pub struct Writer<'a> {
    pub out: &'a mut [u8],
    pub at: u32,
}

// Not by `get_mut`: of its None the proof does not learn that nothing changed.
fn put(out: &mut [u8], i: usize, b: u8)
    ensures { out.new ≡ set out.old i b }
{
    if i < out.len() {
        out[i] = b;
    }
}

impl Writer<'_> {
    // After the greatest position comes that position again.
    pub fn byte(&mut self, b: u8)
        ensures { Writes (Wrote (b ∷ [])) self.old self.new }
    {
        put(self.out, self.at as usize, b);
        self.at = self.at.saturating_add(1);
    }

    // The bytes of w.
    pub fn word(&mut self, w: &[u8])
        ensures { Writes (Wrote w.now) self.old self.new }
    {
        for b in w {
            self.byte(*b);
        }
    }

    // The keyword of kind i.
    pub fn keyword(&mut self, kinds: &[u8], i: u32)
        ensures { Writes (WroteKeyword kinds.now i) self.old self.new }
    {
        let a = 17 * i as usize;
        let n = kinds::at(kinds, a) as usize;
        for k in 0..n {
            self.byte(kinds::at(kinds, a + 1 + k));
        }
    }

    // n in decimal.
    pub fn decimal(&mut self, n: u32)
        ensures { Writes (Wrote (decimal n)) self.old self.new }
    {
        if n < 10 {
            self.byte(b'0' + n as u8);
        } else {
            self.decimal(n / 10);
            self.byte(b'0' + (n % 10) as u8);
        }
    }

    // A tab and n.
    pub fn number_field(&mut self, n: u32)
        ensures { Writes (Wrote (tab ∷ decimal n)) self.old self.new }
    {
        self.byte(b'\t');
        self.decimal(n);
    }

    // A tab and the sign, the number that the call or the table has: 0 is `+`.
    pub fn sign_field(&mut self, sign: u32)
        ensures { Writes (Wrote (tab ∷ field_text a_sign (sign ∷ []))) self.old self.new }
    {
        self.byte(b'\t');
        if sign == 0 {
            self.byte(b'+');
        } else {
            self.byte(b'-');
        }
    }
}
