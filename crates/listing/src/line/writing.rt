// A line grows at its end, and others see what it holds.
ghost use Rattle.std.specs.Prelude.{◌≡◌, ◌+◌, ◌≤◌, [], ◌++◌, length};
ghost use Rattle.listing.specs.Held.{line_bytes};

use super::Line;
use itoa::{Buffer, Integer};

impl Line {
    pub fn bytes(&self) -> &[u8]
        ensures { result.now ≡ line_bytes self.now }
    {
        &self.bytes[..self.len]
    }

    pub(crate) fn new() -> Line
        ensures holds { line_bytes result ≡ [] }
        ensures size { result.len ≡ 0 }
    {
        Line {
            bytes: [0; 160],
            len: 0,
        }
    }

    pub(crate) fn text(&mut self, text: &str)
        requires { self.old.len + length text.now ≤ 160 }
        ensures holds { line_bytes self.new ≡ line_bytes self.old ++ text.now }
        ensures size { self.new.len ≡ self.old.len + length text.now }
    {
        let end = self.len + text.len();
        self.bytes[self.len..end].copy_from_slice(text.as_bytes());
        self.len = end;
    }

    // In decimal.
    pub(crate) fn number<I: Integer>(&mut self, n: I)
        requires { self.old.len + I.MAX_STR_LEN ≤ 160 }
        ensures holds { line_bytes self.new ≡ line_bytes self.old ++ I.text n }
        ensures size { self.new.len ≤ self.old.len + I.MAX_STR_LEN }
    {
        self.text(Buffer::new().format(n));
    }

    // A number after the text that names it.
    pub(crate) fn field<I: Integer>(&mut self, text: &str, n: I)
        requires { self.old.len + length text.now + I.MAX_STR_LEN ≤ 160 }
        ensures holds { line_bytes self.new ≡ line_bytes self.old ++ (text.now ++ I.text n) }
        ensures size { self.new.len ≤ self.old.len + length text.now + I.MAX_STR_LEN }
    {
        self.text(text);
        self.number(n);
    }
}
