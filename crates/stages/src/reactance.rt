// Stage 2: an end of B.
ghost use Rattle.std.specs.Prelude.{◌≡◌, ◌≤◌};
ghost use Rattle.formulas.specs.Laws.Bounds.{most_frequency};

use super::ends::End;
use wide::rounding::rounded;

pub fn reactance<R: End>(f: u64) -> u64
    requires { f ≤ most_frequency }
    ensures { result ≡ R.reactance f }
{
    rounded::<R>(f * R::PI, 250)
}
