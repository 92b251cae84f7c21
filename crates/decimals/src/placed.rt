// Numbers and single bytes written into a slice at a place, beside the functions of lib.rt, which
// append to a text: for a caller that has a buffer of its own. Each answers the place where the next
// byte goes, and leaves the rest of the slice as it was.
ghost use Rattle.std.specs.Prelude.{[], ◌∷◌, ◌+◌, ◌<◌, ◌≤◌, length};
ghost use Rattle.decimals.specs.Decimal.{decimal, spaced};
ghost use Rattle.splice.specs.Put.{Put, PutWithin};

use itoa::Buffer;

// Writes one byte.
pub fn put_byte(out: &mut [u8], at: usize, b: u8) -> usize
    requires { at < length out.old }
    ensures { Put out.old at (b ∷ []) out.new result }
{
    out[at] = b;
    at + 1
}

// Writes x in decimal.
pub fn put_decimal(out: &mut [u8], at: usize, x: u64) -> usize
    requires { at + 20 ≤ length out.old }
    ensures { Put out.old at (decimal x) out.new result }
{
    let mut buffer = Buffer::new();
    let digits = buffer.format(x).as_bytes();
    out[at..at + digits.len()].copy_from_slice(digits);
    at + digits.len()
}

// Writes a blank and a number.
pub fn put_number(out: &mut [u8], at: usize, x: u64) -> usize
    requires { at + 21 ≤ length out.old }
    ensures { PutWithin out.old at (spaced (x ∷ [])) out.new result (at + 21) }
{
    let digits = put_byte(out, at, b' ');
    put_decimal(out, digits, x)
}
