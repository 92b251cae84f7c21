// A whole number of a small unit, written as a decimal fraction of the unit that a person reads.
ghost use Rattle.std.specs.Prelude.{◌≡◌, ◌++◌, ◌+◌, ◌<◌, ◌≤◌};
ghost use Rattle.arrayvec.specs.ArrayString.{array_string_len};
ghost use Rattle.decimals.specs.Decimal.{decimal, padded};
ghost use Rattle.row_text.specs.Value.{fraction, value, whole};

use crate::columns::{put_blanks, put_to_right};
use arrayvec::ArrayString;
use itoa::Buffer;

// Room for a whole part with its sign.
type Whole = ArrayString<40>;

fn put_wide<const N: usize>(out: &mut ArrayString<N>, x: u128)
    requires { array_string_len out.old + 39 ≤ N }
    ensures { out.new.bytes ≡ out.old.bytes ++ decimal x }
{
    let mut digits = Buffer::new();
    out.push_str(digits.format(x));
}

// The last `decimals` digits of x, with their zeros: formatted with a one in front of them, which keeps the zeros and is left out.
fn put_padded<const N: usize>(out: &mut ArrayString<N>, x: u128, decimals: u32)
    requires room { array_string_len out.old + decimals ≤ N }
    requires few { decimals ≤ 16 }
    ensures text { out.new.bytes ≡ out.old.bytes ++ padded decimals x }
    ensures len { array_string_len out.new ≡ array_string_len out.old + decimals }
{
    let one = 10_u128.pow(decimals);
    let mut digits = Buffer::new();
    out.push_str(&digits.format(one + x % one)[1..]);
}

fn whole_of(z: i128, decimals: u32) -> Whole
    requires { decimals ≤ 16 }
    ensures { result.bytes ≡ whole decimals z }
{
    let mut text = Whole::new();
    if z < 0 {
        text.push('-');
    }
    put_wide(&mut text, z.unsigned_abs() / 10_u128.pow(decimals));
    text
}

// What stands behind the whole part: without decimals the blanks of a point and its digits.
fn put_fraction<const N: usize>(out: &mut ArrayString<N>, z: i128, decimals: u32, digits: usize)
    requires room { array_string_len out.old + digits + 17 ≤ N }
    requires few { decimals ≤ 16 }
    ensures text { out.new.bytes ≡ out.old.bytes ++ fraction digits decimals z }
    ensures within { array_string_len out.new ≤ array_string_len out.old + digits + 17 }
{
    if decimals == 0 {
        put_blanks(out, digits + 1);
        return;
    }
    out.push('.');
    put_padded(out, z.unsigned_abs(), decimals);
    put_blanks(out, digits.saturating_sub(decimals as usize));
}

// A value whose whole part has `before` columns at least and whose digits after the point have `after`.
#[tactic(auto, unfolding(crate::specs::Value::value))]
pub fn put_value<const N: usize>(
    out: &mut ArrayString<N>,
    z: i128,
    decimals: u32,
    before: usize,
    after: usize,
)
    requires room { array_string_len out.old + before + after + 57 ≤ N }
    requires few { decimals ≤ 16 }
    ensures text { out.new.bytes ≡ out.old.bytes ++ value before after decimals z }
    ensures within { array_string_len out.new ≤ array_string_len out.old + before + after + 57 }
{
    let text = whole_of(z, decimals);
    put_to_right(out, before, text.as_str());
    put_fraction(out, z, decimals, after);
}
