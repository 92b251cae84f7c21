// The refusals of a case, in the order in which they are tried. The numbers are those of docs/RATING.md, 'The refusals', which the C
// functions and the books write.
ghost use Rattle.std.specs.Prelude.{◌≡◌};
ghost use Rattle.rating.specs.Refusal.{number_of};

#[derive(Clone, Copy, Debug, PartialEq, Eq)]
pub enum Refusal {
    Arrangement,
    Conductor,
    Limit,
    Stray,
    Geometry,
    Heat,
    Isotherm,
    Sun,
    Metal,
    DirectVoltage,
    Skin,
    Eddy,
    Dielectric,
    Current,
}

// By a match, as `number_of` is, and as a book's refusals are, one of which has a field and so no discriminant.
impl From<Refusal> for u32 {
    ghost from_gives = { λ refusal n. n ≡ number_of refusal };

    fn from(refusal: Refusal) -> u32 {
        match refusal {
            Refusal::Arrangement => 1,
            Refusal::Conductor => 2,
            Refusal::Limit => 3,
            Refusal::Stray => 4,
            Refusal::Geometry => 5,
            Refusal::Heat => 6,
            Refusal::Isotherm => 31,
            Refusal::Sun => 32,
            Refusal::Metal => 7,
            Refusal::DirectVoltage => 33,
            Refusal::Skin => 8,
            Refusal::Eddy => 9,
            Refusal::Dielectric => 10,
            Refusal::Current => 11,
        }
    }
}
