// The refusals of a book, by name. Programs print their numbers and C gets them, so each has one
// (docs/BOOK.md).
ghost use Rattle.std.specs.Prelude.{◌≡◌};
ghost use Rattle.book_bytes.specs.Refusal.{number_of};

// In the order of their numbers. `Disagrees` has the first record that is not its case's rating,
// counted from 1.
#[derive(Clone, Copy, Debug, PartialEq, Eq)]
pub enum Refusal {
    Length,
    Mark,
    Trailer,
    Disagrees(usize),
    Space,
    Full,
    Index,
}

// By a match: `Disagrees` has a field, so there is no discriminant.
impl From<Refusal> for u32 {
    ghost from_gives = { λ refusal number. number ≡ number_of refusal };

    fn from(refusal: Refusal) -> u32 {
        match refusal {
            Refusal::Length => 20,
            Refusal::Mark => 21,
            Refusal::Trailer => 22,
            Refusal::Disagrees(_) => 23,
            Refusal::Space => 24,
            Refusal::Full => 25,
            Refusal::Index => 26,
        }
    }
}
