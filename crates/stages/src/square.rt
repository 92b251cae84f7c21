// The square of a ratio, over T, as stages 7 and 8 take it: both quotients are rounded the same way.
ghost use Rattle.std.specs.Prelude.{◌≡◌, ◌*◌};
ghost use Rattle.exact.specs.Trillion.{trillion};
ghost use Rattle.stages.specs.Laws.Ranges.{SquareFits};

use wide::ratio::mul_div;
use wide::rounding::Rounding;
use wide::trillion::mul_div_trillion;

// Of the ratio a·b/c.
pub fn ratio_squared<R: Rounding>(a: u64, b: u64, c: u64) -> u64
    requires { SquareFits R.round (a * b) c }
    ensures { let v = R.round (a * b) c in result ≡ R.round (v * v) trillion }
{
    let v = mul_div::<R>(a, b, c);
    mul_div_trillion::<R>(v, v)
}
