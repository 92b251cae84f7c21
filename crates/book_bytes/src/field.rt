// A field of a record or of the trailer: a big-endian word of 32 bits.
ghost use Rattle.std.specs.Prelude.{◌≡◌, ◌+◌, ◌≤◌, length};
ghost use Rattle.book_laws.specs.Bytes.{word_at, word_bytes};
ghost use Rattle.splice.specs.Splice.{splice};

use super::part::put;

// A place beside the bytes: places are those of the layout.
pub(crate) fn word_at(bytes: &[u8], at: usize) -> u32
    requires { at + 4 ≤ length bytes.now }
    ensures { result ≡ word_at bytes.now at }
{
    u32::from_be_bytes(*bytes[at..].first_chunk().unwrap())
}

pub(crate) fn put_word(bytes: &mut [u8], at: usize, word: u32)
    requires { at + 4 ≤ length bytes.old }
    ensures { bytes.new ≡ splice bytes.old at (word_bytes word) }
{
    put(bytes, at, &word.to_be_bytes());
}
