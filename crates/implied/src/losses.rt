// The losses of a metre of one core, and how they compare.
ghost use Rattle.std.specs.Prelude.{◌≡◌, ◌<◌, ◌^◌};
ghost use Rattle.implied.specs.Implied as Implied;
ghost use Rattle.implied.specs.Nearest as Nearest;

use crate::nearest::nearest;

pub(crate) fn factor(s: u64, r: u64) -> u128
    ensures value { result ≡ Implied.factor s r }
    ensures small { result < 2 ^ 85 }
{
    nearest(u128::from(s) * 1000000, u128::from(r))
}

// The bound is for the sums that a loss stands in.
pub(crate) fn loss(rating: u32, r: u64) -> u128
    ensures value { result ≡ Implied.loss rating r }
    ensures small { result < 2 ^ 76 }
{
    let i = u128::from(rating);
    nearest(i * i * u128::from(r), 10000000000000000)
}

pub(crate) fn dielectric_loss(wd: u64) -> u128
    ensures value { result ≡ Nearest.nearest wd 1000000 }
    ensures small { result < 2 ^ 76 }
{
    nearest(u128::from(wd), 1000000)
}
