// The rating of a case of any 30 words, in four steps: `of` tries refusal 1, `checked` the others of the fields, `judged` 8 and 9, and
// `loaded` 10 and 11. Each refuses the case, or hands it on as a type that keeps what is then known of it.
ghost use Rattle.std.specs.Prelude.{◌≡◌};
ghost use Rattle.rating.specs.Rate.{answer_of, rate_of};

use super::known::KnownCase;
use super::refusal::Refusal;
use fields::Case;

// How many numbers the sheet has.
pub const SHEET: usize = 13;

// The rating in mA, and the sheet: R', Rs, RA, B, ys, yp, R, X, S, W, Wd, dd, E, in the order in which C and the printed lines have them.
#[derive(Clone, Copy, Debug, PartialEq, Eq)]
pub struct Rated {
    pub rating: u32,
    pub sheet: [u64; SHEET],
}

#[tactic(auto, unfolding(crate::specs::Rate::refused))]
pub fn rate(x: Case) -> Result<Rated, Refusal>
    ensures { answer_of result ≡ rate_of x }
{
    KnownCase::of(x)?.checked()?.judged()?.loaded()
}
