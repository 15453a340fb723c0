// Numbers in bytes, low byte first. Whoever reads has checked the length first.
ghost use Rattle.std.specs.Prelude.{◌≡◌, ◌+◌, ◌<◌, length};
ghost use Rattle.scene.specs.Layout.{byte_at, number_at, word_at, words_at};
ghost use Rattle.scene.specs.Rules.{marked};

use element::words::Words;

pub(crate) fn byte_at(bytes: &[u8], at: usize) -> u8
    requires { at < length bytes.now }
    ensures { result ≡ byte_at bytes.now at }
{
    bytes[at]
}

pub(crate) fn number_at(bytes: &[u8], at: usize) -> u16
    requires { at + 1 < length bytes.now }
    ensures { result ≡ number_at bytes.now at }
{
    u16::from_le_bytes([byte_at(bytes, at), byte_at(bytes, at + 1)])
}

pub(crate) fn word_at(bytes: &[u8], at: usize) -> u32
    requires { at + 3 < length bytes.now }
    ensures { result ≡ word_at bytes.now at }
{
    u32::from_le_bytes([
        byte_at(bytes, at),
        byte_at(bytes, at + 1),
        byte_at(bytes, at + 2),
        byte_at(bytes, at + 3),
    ])
}

pub(crate) fn words_at(bytes: &[u8], at: usize) -> Words
    requires { at + 11 < length bytes.now }
    ensures { result ≡ words_at bytes.now at }
{
    Words {
        x: word_at(bytes, at),
        y: word_at(bytes, at + 4),
        z: word_at(bytes, at + 8),
    }
}

// Whether a mark of two bytes stands at a place.
pub(crate) fn is_marked(bytes: &[u8], at: usize, mark: [u8; 2]) -> bool
    requires { at + 1 < length bytes.now }
    ensures { result ≡ marked bytes.now at mark }
{
    byte_at(bytes, at) == mark[0] && byte_at(bytes, at + 1) == mark[1]
}
