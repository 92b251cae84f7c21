// Writing the front of a buffer to a stream, as standard output. What a program prints is put into
// a buffer first, of which a contract can speak, and goes out from there.
#![tactic(auto)]

ghost use Rattle.std.specs.Prelude.{◌≡◌, true, take};
ghost use Rattle.std.specs.Io.KnownBytes.{Appends};

use std::io::Write;

// Writes the first `used` bytes of `out`, or all of it where it has fewer. Answers whether all of
// that was written.
pub fn send<W: Write>(to: &mut W, out: &[u8], used: usize) -> bool
    ensures { result ≡ true → Appends (W.contents to.old) (W.contents to.new) (take used out.now) }
{
    if used < out.len() {
        return to.write_all(&out[..used]).is_ok();
    }
    to.write_all(out).is_ok()
}
