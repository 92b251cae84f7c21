// The comparisons with a line, and those with a range of the rating: how many were made and how many
// failed, and how one more is made.
ghost use Rattle.check_vectors.specs.Counts.{compared};
ghost use Rattle.std.specs.Prelude.{Bool, ◌≡◌};

use crate::count::Count;
use crate::expected::{is_same, is_within};
use crate::waiting::Waiting;

#[derive(Clone, Copy, Default)]
pub(crate) struct Tally {
    pub(crate) cases: Count,
    pub(crate) ranges: Count,
}

impl Tally {
    // A case is compared with what a line says that it must get: what the program `rate` must print for
    // it, or by `r LOW HIGH` that its rating lies between these, ends included (mA).
    pub(crate) fn compare(&mut self, case: &Waiting, line: &[u8])
        ensures { (is_right : Bool) × (self.new ≡ compared line.now is_right self.old) }
    {
        match line.strip_prefix(b"r") {
            Some(range) => self.ranges.add(is_within(range, case.rating)),
            None => self.cases.add(is_same(case.text.as_str(), line)),
        }
    }
}
