// A number of two limbs by value, hi * 2^64 + lo, and what needs no division.
ghost use Rattle.std.specs.Prelude.{◌≡◌, ◌+◌, ◌*◌, ◌^◌, ◌<◌, ltb};
ghost use Rattle.wide.specs.Limbs.{value};

// The order of the fields is that of the numbers: the upper limb decides first.
#[derive(Clone, Copy, Debug, PartialEq, Eq, PartialOrd, Ord)]
pub struct Wide {
    pub hi: u64,
    pub lo: u64,
}

#[tactic(auto, unfolding(crate::specs::Limbs::value))]
pub fn product(a: u64, b: u64) -> Wide
    ensures { value result ≡ a * b }
{
    let (lo, hi) = a.carrying_mul(b, 0);
    Wide { hi, lo }
}

#[tactic(auto, unfolding(crate::specs::Limbs::value))]
pub fn scaled(w: Wide, k: u64) -> Wide
    requires { value w * k < 2 ^ 128 }
    ensures { value result ≡ value w * k }
{
    let low = product(w.lo, k);
    Wide {
        hi: w.hi * k + low.hi,
        lo: low.lo,
    }
}

#[tactic(auto, unfolding(crate::specs::Limbs::value))]
pub fn sum(x: Wide, y: Wide) -> Wide
    requires { value x + value y < 2 ^ 128 }
    ensures { value result ≡ value x + value y }
{
    let (lo, carry) = x.lo.carrying_add(y.lo, false);
    Wide {
        hi: x.hi + y.hi + u64::from(carry),
        lo,
    }
}

// The derived order is that of the numbers.
#[tactic(auto, unfolding(crate::specs::Limbs::value))]
pub fn less(x: Wide, y: Wide) -> bool
    ensures { result ≡ ltb (value x) (value y) }
{
    x < y
}
