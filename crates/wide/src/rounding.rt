// The two ways of rounding a quotient, as types: what rounds either way is one function with a parameter `R: Rounding`.
ghost use Rattle.std.specs.Prelude.{◌≡◌, ℕ, ◌+◌, ◌≤◌, ◌<◌};
ghost use Rattle.exact.specs.Rounding.{up, down};
ghost use Rattle.wide.specs.Split.{Split, upward};
ghost use Rattle.wide.specs.Laws.Split.{down_of_split, up_of_split, nothing_carried, at_most_rest};

pub trait Rounding {
    // n/c as a whole number.
    ghost round: { ℕ → ℕ → ℕ };

    // What a rest adds to the quotient.
    ghost carry: { ℕ → ℕ };

    fn carry(rest: u64) -> u64
        ensures { result ≡ carry rest };

    ghost rounds: { (n c q r : ℕ) → Split n c q r → q + carry r ≡ round n c };

    ghost carry_most: { (r : ℕ) → carry r ≤ r };
}

pub struct Down;

impl Rounding for Down {
    ghost round = { down };

    ghost carry = { λ r. 0 };

    ghost rounds = { down_of_split };

    ghost carry_most = { nothing_carried };

    fn carry(_rest: u64) -> u64 {
        0
    }
}

pub struct Up;

impl Rounding for Up {
    ghost round = { up };

    ghost carry = { upward 0 };

    ghost rounds = { up_of_split };

    ghost carry_most = { at_most_rest };

    fn carry(rest: u64) -> u64 {
        if rest == 0 { 0 } else { 1 }
    }
}

// n/c where both are one limb. That c is not 0 stays a clause: a NonZero divisor would have to be made at each call.
pub fn rounded<R: Rounding>(n: u64, c: u64) -> u64
    requires { 0 < c }
    ensures { result ≡ R.round n c }
{
    n / c + R::carry(n % c)
}
