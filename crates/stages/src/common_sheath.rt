// Stage 7 in arrangement 6: the eddy loss in one sheath around three cores.
ghost use Rattle.std.specs.Prelude.{◌≡◌, ◌+◌, ◌*◌};
ghost use Rattle.exact.specs.Rounding.{up};
ghost use Rattle.formulas.specs.CommonSheath.{
  axis_ratio,
  first_formula,
  second_formula,
  common_loss,
};
ghost use Rattle.formulas.specs.Constants.{tera};
ghost use Rattle.stages.specs.Laws.Ranges.{
  AxisRanges,
  TermRanges,
  FirstFormulaRanges,
  SecondFormulaRanges,
  CommonLossRanges,
};

use super::square::ratio_squared;
use wide::limbs::{product, scaled};
use wide::quotient::quotient;
use wide::ratio::mul_div;
use wide::rounding::{Down, Up};
use wide::trillion::{T, mul_div_trillion};

// The largest Rs that the first formula is for.
const FIRST_FORMULA_LIMIT: u64 = 1_000_000_000_000;

// (2c/d)², which stage 8 has too. Stages 4 and 7 have a square of a ratio as well; each is one quotient with factors of its own,
// and a function for all would be no shorter than they are.
pub fn axis_ratio(c: u64, d: u64) -> u64
    requires { AxisRanges c d }
    ensures { result ≡ axis_ratio c d }
{
    mul_div::<Up>(4 * (c * c), T, d * d)
}

// A term of the first formula: `part` over 1 + k/T. Stages 7 and 8 have such quotients too; each is one call, and a shared name would be
// no plainer.
fn term(part: u64, k: u64) -> u64
    requires { TermRanges part k }
    ensures { result ≡ up (part * tera) (tera + k) }
{
    mul_div::<Up>(part, T, T + k)
}

// `b` is the paper's B, and `ratio` its b.
fn first_formula(b: u64, rs: u64, ratio: u64) -> u64
    requires { FirstFormulaRanges b rs ratio }
    ensures { result ≡ first_formula b rs ratio }
{
    let y2 = ratio_squared::<Down>(2 * rs, T, b);
    let ratio2 = mul_div_trillion::<Up>(ratio, ratio);
    mul_div_trillion::<Up>(3 * rs, term(ratio, y2) + term(ratio2, 4 * y2))
}

// The numerator has up to 122 bits and the divisor 5 Rs T up to 91, so it is divided by 5 Rs and then by T: two roundings up
// are one.
fn second_formula(b: u64, rs: u64, ratio: u64) -> u64
    requires { SecondFormulaRanges b rs ratio }
    ensures { result ≡ second_formula b rs ratio }
{
    let numerator = scaled(product(4 * b, b), ratio);
    let share = quotient::<Up>(numerator, 5 * rs);
    quotient::<Up>(share, T).lo
}

pub fn common_loss(b: u64, rs: u64, c: u64, d: u64) -> u64
    requires { CommonLossRanges b rs c d }
    ensures { result ≡ common_loss b rs c d }
{
    let ratio = axis_ratio(c, d);
    if rs <= FIRST_FORMULA_LIMIT {
        return first_formula(b, rs, ratio);
    }
    second_formula(b, rs, ratio)
}
