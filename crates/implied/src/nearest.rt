// A quotient to the nearest whole number.
ghost use Rattle.std.specs.Prelude.{◌≡◌};
ghost use Rattle.implied.specs.Nearest.{nearest};

// From the quotient and the rest, since twice the dividend may not fit.
pub(crate) fn nearest(a: u128, b: u128) -> u128
    ensures { result ≡ nearest a b }
{
    if b == 0 {
        return 0;
    }
    let quotient = a / b;
    let rest = a % b;
    if b - rest <= rest {
        quotient + 1
    } else {
        quotient
    }
}
