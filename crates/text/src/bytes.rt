// Bytes written into a slice at a place, for a caller that has a buffer of its own. All of them must
// fit, where `gather::keep` keeps as many as do.
ghost use Rattle.std.specs.Prelude.{◌+◌, ◌≤◌, length};
ghost use Rattle.splice.specs.Put.{Put};

use crate::gather::keep;

// Writes bytes, and answers the place after them.
pub fn put_bytes(out: &mut [u8], at: usize, bytes: &[u8]) -> usize
    requires { at + length bytes.now ≤ length out.old }
    ensures { Put out.old at bytes.now out.new result }
{
    keep(out, at, bytes, 0, bytes.len())
}
