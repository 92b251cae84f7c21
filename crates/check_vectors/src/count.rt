// How many comparisons of one kind were made, and how many of them failed.
ghost use Rattle.check_vectors.specs.Counts.{counted};
ghost use Rattle.std.specs.Prelude.{◌≡◌};

#[derive(Clone, Copy, Default)]
pub(crate) struct Count {
    pub(crate) made: u64,
    pub(crate) failed: u64,
}

impl Count {
    // One more comparison. `is_right` is what was found, a value and no switch.
    pub(crate) fn add(&mut self, is_right: bool)
        ensures { self.new ≡ counted is_right self.old }
    {
        self.made = self.made.saturating_add(1);
        self.failed = self.failed.saturating_add(u64::from(!is_right));
    }
}
