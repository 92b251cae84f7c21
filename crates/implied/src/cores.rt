// The number of cores of a case's arrangement.
ghost use Rattle.std.specs.Prelude.{◌≡◌, ◌≤◌};
ghost use Rattle.rating.specs.Arrangements.{own};

use fields::{ARRANGEMENT, Case};

// 0 for a number that is no arrangement. The bound is for the sums that it stands in.
#[tactic(auto, using(crate::proofs::CoreCount::cores_of))]
pub(crate) fn cores(x: Case) -> u128
    ensures value { result ≡ (own x).n }
    ensures few { result ≤ 3 }
{
    match x[ARRANGEMENT] {
        1 => 1,
        2 => 1,
        3 => 1,
        4 => 1,
        5 => 3,
        6 => 3,
        7 => 1,
        _ => 0,
    }
}
