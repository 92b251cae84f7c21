// The arrangements that have a row of the numbers.
ghost use Rattle.std.specs.Prelude.{◌≡◌};
ghost use Rattle.sheet_text.specs.NumberRows.{has};

// All; those whose current alternates; those whose sheath loss goes by X; and that with armour.
#[derive(Clone, Copy)]
pub(crate) enum Has {
    All,
    Alternating,
    Reactive,
    Armoured,
}

impl Has {
    #[tactic(auto, unfolding(crate::specs::NumberRows::has))]
    pub(crate) fn has(self, a: u32) -> bool
        ensures { result ≡ has self a }
    {
        match self {
            Has::All => true,
            Has::Alternating => (1 <= a) & (a <= 6),
            Has::Reactive => (a == 1) | (a == 2) | (a == 5),
            Has::Armoured => a == 5,
        }
    }
}
