// Numbers in decimal, appended to a text in a buffer of fixed size. The digits are the library's; what
// they are is said by this crate's own definition, which a reader can check. A bound on the text's
// length shows a caller that what it appends next has room.
#![tactic(auto)]

ghost use Rattle.std.specs.Prelude.{[], ◌∷◌, ◌++◌, ◌≡◌, ◌+◌, ◌≤◌};
ghost use Rattle.arrayvec.specs.ArrayString.{array_string_len};
ghost use Rattle.decimals.specs.Decimal.{decimal, spaced};

pub mod placed;

use arrayvec::ArrayString;
use itoa::Buffer;

// Appends x in decimal.
pub fn put_decimal<const N: usize>(out: &mut ArrayString<N>, x: u64)
    requires { array_string_len out.old + 20 ≤ N }
    ensures text { out.new.bytes ≡ out.old.bytes ++ decimal x }
    ensures within { array_string_len out.new ≤ array_string_len out.old + 20 }
{
    let mut digits = Buffer::new();
    out.push_str(digits.format(x));
}

// Appends a blank and a number.
pub fn put_number<const N: usize>(out: &mut ArrayString<N>, x: u64)
    requires { array_string_len out.old + 21 ≤ N }
    ensures text { out.new.bytes ≡ out.old.bytes ++ spaced (x ∷ []) }
    ensures within { array_string_len out.new ≤ array_string_len out.old + 21 }
{
    out.push(' ');
    put_decimal(out, x);
}
