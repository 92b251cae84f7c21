// Evidence from outside the proofs: cases with what they must get, from standard input, and how many
// were compared. Lines are read by their bytes here, and not by what they say, since a line that says
// what a case must get is compared byte by byte.
#![tactic(auto)]

mod count;
mod expected;
mod tally;
mod two_records;
mod waiting;

ghost use Rattle.check_vectors.specs.Counts.{compared};
ghost use Rattle.check_vectors.specs.Waiting.{waits_after};
ghost use Rattle.std.specs.Prelude.{Bool, cond, eqb, length, ◌≡◌};

use count::Count;
use input::Lines;
use input::source::{Reader, Source};
use std::io;
use tally::Tally;
use waiting::Waiting;

// Each line is a case, or what the case before it must get, which then waits no more.
fn turn(waiting: &mut Waiting, tally: &mut Tally, number: u64, line: &[u8])
    ensures waits { waiting.new.text.bytes ≡ waits_after waiting.old.text.bytes number line.now }
    ensures counts { (is_right : Bool) × (tally.new ≡
        cond (eqb (length waiting.old.text.bytes) 0) tally.old (compared line.now is_right tally.old)) }
{
    if waiting.text.is_empty() {
        waiting.take_case(number, line);
    } else {
        tally.compare(waiting, line);
        waiting.text.clear();
    }
}

// No case waits before the first line.
fn compare<S: Source + Drop>(lines: Lines<S>) -> Tally {
    let mut tally = Tally::default();
    let mut waiting = Waiting::none();
    for (number, line) in (1..=u64::MAX).zip(lines) {
        turn(&mut waiting, &mut tally, number, &line);
    }
    tally
}

fn main(rt: HostRuntime) -> io::Result<()> {
    let Tally { cases, ranges } = compare(Lines::new(Reader(rt.stdin())));
    let Count { made, failed } = cases;
    print!(rt; "{made} cases compared, {failed} differ\n")?;
    let Count { made, failed } = ranges;
    print!(rt; "{made} published ratings held to their tolerance, {failed} outside\n")?;
    let distance = two_records::distance_of_two().unwrap_or(0);
    print!(rt; "a book of 2 records has the distance {distance}\n")?;
    let count = two_records::count_of_older(224).unwrap_or(0);
    print!(rt; "an older book with the distance 224 has {count} records\n")
}
