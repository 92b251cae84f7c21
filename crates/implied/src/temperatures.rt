// Temperatures below that of the conductor.
ghost use Rattle.std.specs.Prelude.{◌≡◌, ◌<◌, ◌*◌, ◌^◌};
ghost use Rattle.std.specs.Int.{w32};
ghost use Rattle.std.proofs.Common.{to_z};
ghost use Rattle.implied.specs.Implied as Implied;

use crate::nearest::nearest;

// The drop across a thermal resistance, in the unit of their product. The bounds are for the sums that it stands in.
pub(crate) fn drop_across(power: u128, t: u32) -> u128
    requires { power < 2 ^ 82 }
    ensures value { result ≡ power * t }
    ensures small { result < 2 ^ 114 }
{
    power * u128::from(t)
}

pub(crate) fn cooler(theta: u32, halves: u128) -> i128
    requires { halves < 2 ^ 120 }
    ensures { result ≡ Implied.cooler (to_z w32 theta) halves }
{
    // as: the drop is far below the largest i128
    i128::from(theta.cast_signed()) - nearest(halves, 20000000000) as i128
}
