// A text that is made from its end: no byte has to be counted before it is written.
ghost use Rattle.std.specs.Prelude.{◌≡◌, ◌∷◌, ◌++◌, ◌+◌, ◌≤◌, take, replicate};
ghost use Rattle.sweep_text.specs.Decimal.{decimal, signed_decimal};

// The bytes from `from` on. Before them stand line ends.
// An array and a place, and no String: libraries use no heap.
#[derive(Clone, Copy)]
pub struct LineText {
    pub bytes: [u8; 64],
    pub from: usize,
    ghost filled: { (from ≤ 64) × (take from bytes ≡ replicate from 0x0A) },
}

impl LineText {
    ghost use Rattle.sweep_text.specs.Line.{text_of, line_end};

    // A line's end.
    pub(crate) fn new() -> LineText
        ensures { (text_of result ≡ line_end) × (result.from ≡ 63) }
    {
        LineText {
            bytes: [0x0A; 64],
            from: 63,
        }
    }

    // The text.
    pub fn as_bytes(&self) -> &[u8]
        ensures { result.now ≡ text_of self.now }
    {
        &self.bytes[self.from..]
    }

    // The text after one more byte.
    #[tactic(auto, using(crate::proofs::Texts::rest_before))]
    pub(crate) fn after(self, byte: u8) -> LineText
        requires { 1 ≤ self.from }
        ensures { (text_of result ≡ byte ∷ text_of self) × (result.from + 1 ≡ self.from) }
    {
        let from = self.from - 1;
        let mut bytes = self.bytes;
        bytes[from] = byte;
        LineText { bytes, from }
    }

    // The text after a number.
    #[tactic(auto, using(crate::proofs::Digits::digit_by_digit))]
    pub(crate) fn after_number(self, n: u32) -> LineText
        requires { 10 ≤ self.from }
        ensures { (text_of result ≡ decimal n ++ text_of self) × (self.from ≤ result.from + 10) }
    {
        let mut line = self;
        let mut rest = n;
        while 10 <= rest {
            line = line.after(b'0' + (rest % 10) as u8);
            rest /= 10;
        }
        line.after(b'0' + rest as u8)
    }

    // The text after a number with its sign.
    pub(crate) fn after_signed(self, z: i32) -> LineText
        requires { 11 ≤ self.from }
        ensures { (text_of result ≡ signed_decimal z ++ text_of self) × (self.from ≤ result.from + 11) }
    {
        let line = self.after_number(z.unsigned_abs());
        if z < 0 { line.after(b'-') } else { line }
    }
}
