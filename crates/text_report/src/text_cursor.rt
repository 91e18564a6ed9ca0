//! A line of text is put together piece by piece at the front of a slice.
ghost use Rattle.std.specs.Prelude.{◌≡◌, ◌+◌, ◌*◌, ◌≤◌, ◌++◌, length};
ghost use Rattle.hex.specs.Hex.{encode_lower};
ghost use Rattle.text_report.specs.TextCursor.{Extends, HasTextRoom};

use itoa::Integer;

/// A line that is put together at the front of a slice, which has room for it. Each call adds a piece of text.
#[derive(Drop)]
pub struct TextCursor<'a> {
    /// Where the line stands.
    pub out: &'a mut [u8],
    /// How many octets the line has so far.
    pub at: usize,
}

impl<'a> TextCursor<'a> {
    /// An empty line.
    #[inline]
    pub fn new(out: &'a mut [u8]) -> TextCursor<'a>
        ensures empty { result.at ≡ 0 }
        ensures size { length result.out.now ≡ length out.old }
        ensures slice { result.out.ghost_name ≡ out.entry.ghost_name }
    {
        TextCursor { out, at: 0 }
    }

    /// Adds octets as they are.
    #[inline]
    pub fn text(&mut self, piece: &[u8])
        requires { HasTextRoom self.old (length piece.now) }
        ensures { Extends self.old self.new piece.now }
    {
        let end = self.at + piece.len();
        self.out[self.at..end].copy_from_slice(piece);
        self.at = end;
    }

    /// Adds a number in decimal digits.
    pub fn decimal<I: Integer>(&mut self, n: I)
        requires { HasTextRoom self.old I.MAX_STR_LEN }
        ensures text { Extends self.old self.new (I.text n) }
        ensures end { self.new.at ≤ self.old.at + I.MAX_STR_LEN }
    {
        let mut digits = itoa::Buffer::new();
        self.text(digits.format(n).as_bytes());
    }

    /// Adds octets as they are, and a number in decimal digits behind them.
    pub fn number<I: Integer>(&mut self, before: &[u8], n: I)
        requires { HasTextRoom self.old (length before.now + I.MAX_STR_LEN) }
        ensures text { Extends self.old self.new (before.now ++ I.text n) }
        ensures end { self.new.at ≤ self.old.at + length before.now + I.MAX_STR_LEN }
    {
        self.text(before);
        self.decimal(n);
    }

    /// Adds octets in hexadecimal digits, two lower-case digits each.
    #[inline]
    pub fn hex(&mut self, octets: &[u8])
        requires { HasTextRoom self.old (2 * length octets.now) }
        ensures text { Extends self.old self.new (encode_lower octets.now) }
        ensures end { self.new.at ≡ self.old.at + 2 * length octets.now }
    {
        let end = self.at + 2 * octets.len();
        text_hex::encode(octets, &mut self.out[self.at..end]);
        self.at = end;
    }

    /// How many octets the line has.
    #[inline]
    pub fn end(&self) -> usize
        ensures { result ≡ self.now.at }
    {
        self.at
    }
}
