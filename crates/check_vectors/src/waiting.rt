// The case that waits for what it must get, where one waits: how none does before the first line, and
// how the case that a line has begins to.
ghost use Rattle.check_vectors.specs.Waiting.{rating_in, rating_said};
ghost use Rattle.rate_text.specs.Answers.{printed};
ghost use Rattle.std.specs.Prelude.{[], ◌≡◌};

use arrayvec::ArrayString;
use rate_text::{ROOM, print_line};
use rating::rate::rate;
use text::line::{Said, read_line};

// What `rate` prints for the case, which is empty where none waits, and its rating. One text for all
// cases, and no Option of a case with a text of its own, since a text is large and would be moved.
#[derive(Drop)]
pub(crate) struct Waiting {
    pub(crate) text: ArrayString<ROOM>,
    pub(crate) rating: u32,
}

// The rating of the case that a line says, and 0 where it says none or one that is refused. 0 and no
// Option: that is the rating which rate prints for a refused case.
fn rating_of(line: &[u8]) -> u32
    ensures { result ≡ rating_in line.now }
{
    match read_line(line) {
        Said::Case(x) => match rate(x) {
            Ok(rated) => rated.rating,
            Err(_) => 0,
        },
        Said::PassedOver | Said::Unreadable => 0,
    }
}

impl Waiting {
    // No case waits.
    pub(crate) fn none() -> Self
        ensures { result.text.bytes ≡ [] }
    {
        Waiting {
            text: ArrayString::new(),
            rating: 0,
        }
    }

    // The case that a line has now waits. Nothing is printed for empty lines and lines that begin with
    // `#`: they are passed over.
    pub(crate) fn take_case(&mut self, number: u64, line: &[u8])
        requires { self.old.text.bytes ≡ [] }
        ensures text { self.new.text.bytes ≡ printed number line.now }
        ensures rating { self.new.rating ≡ rating_in line.now }
    {
        print_line(&mut self.text, number, line);
        self.rating = rating_of(line);
    }
}
