// What the program `rate` prints for a line of its input, and what a program says of a line. Each
// function appends to the text in `out`. Each asks for its room anew, since what is left of the buffer
// changes with each.
#![tactic(auto)]

ghost use Rattle.std.specs.Prelude.{◌++◌, ◌≡◌, ◌+◌, ◌≤◌, length};
ghost use Rattle.arrayvec.specs.ArrayString.{array_string_len};
ghost use Rattle.rate_text.specs.Answers.{answer_room, sheet_room, text_of, about_line, unreadable_text, printed_for, printed};
ghost use Rattle.rating.specs.Rate.{answer_of};
ghost use Rattle.decimals.specs.Decimal.{spaced};

pub mod placed;

use arrayvec::ArrayString;
use decimals::{put_decimal, put_number};
use rating::rate::{Rated, SHEET, rate};
use rating::refusal::Refusal;
use text::line::{Said, read_line};

// Room for what is printed for any line.
pub const ROOM: usize = 512;

// Appends each number of a sheet with a blank before it.
fn put_sheet<const N: usize>(out: &mut ArrayString<N>, sheet: [u64; SHEET])
    requires { array_string_len out.old + sheet_room ≤ N }
    ensures text { out.new.bytes ≡ out.old.bytes ++ spaced sheet }
    ensures within { array_string_len out.new ≤ array_string_len out.old + sheet_room }
{
    for x in sheet {
        put_number(out, x);
    }
}

// Appends the line of an answer with these numbers.
fn put_numbers<const N: usize>(
    out: &mut ArrayString<N>,
    number: u32,
    rating: u32,
    sheet: [u64; SHEET],
)
    requires { array_string_len out.old + answer_room ≤ N }
    ensures text { out.new.bytes ≡ out.old.bytes
        ++ text_of (record { number = number; rating = rating; sheet = sheet }) }
    ensures within { array_string_len out.new ≤ array_string_len out.old + answer_room }
{
    put_decimal(out, u64::from(number));
    put_number(out, u64::from(rating));
    put_sheet(out, sheet);
    out.push('\n');
}

// Appends the line for a case, by what it is rated.
fn put_answer<const N: usize>(out: &mut ArrayString<N>, rated: Result<Rated, Refusal>)
    requires { array_string_len out.old + answer_room ≤ N }
    ensures text { out.new.bytes ≡ out.old.bytes ++ text_of (answer_of rated) }
    ensures within { array_string_len out.new ≤ array_string_len out.old + answer_room }
{
    match rated {
        Ok(rated) => put_numbers(out, 0, rated.rating, rated.sheet),
        Err(refusal) => put_numbers(out, u32::from(refusal), 0, [0; SHEET]),
    }
}

// Appends what is said of a line: its number, and a text.
#[tactic(auto, unfolding(crate::specs::Answers::about_line))]
pub fn put_about<const N: usize>(out: &mut ArrayString<N>, number: u64, text: &str)
    requires { array_string_len out.old + 25 + length text.now ≤ N }
    ensures text { out.new.bytes ≡ out.old.bytes ++ about_line number text.now }
    ensures within { array_string_len out.new ≤ array_string_len out.old + 25 + length text.now }
{
    out.push_str("line ");
    put_decimal(out, number);
    out.push_str(text);
}

// Appends the line for an unreadable line.
#[tactic(auto, unfolding(crate::specs::Answers::unreadable_text))]
fn put_unreadable<const N: usize>(out: &mut ArrayString<N>, number: u64)
    requires { array_string_len out.old + answer_room ≤ N }
    ensures text { out.new.bytes ≡ out.old.bytes ++ unreadable_text number }
    ensures within { array_string_len out.new ≤ array_string_len out.old + answer_room }
{
    put_about(out, number, ": unreadable\n");
}

// Appends what is printed for a line, given its number and what it says.
#[tactic(auto, unfolding(crate::specs::Answers::printed_for))]
pub fn print_said<const N: usize>(out: &mut ArrayString<N>, number: u64, said: Said)
    requires { array_string_len out.old + answer_room ≤ N }
    ensures text { out.new.bytes ≡ out.old.bytes ++ printed_for number said }
    ensures within { array_string_len out.new ≤ array_string_len out.old + answer_room }
{
    match said {
        Said::PassedOver => {}
        Said::Case(x) => put_answer(out, rate(x)),
        Said::Unreadable => put_unreadable(out, number),
    }
}

// Appends what is printed for a line, given its number and its bytes without the line feed.
#[tactic(auto, unfolding(crate::specs::Answers::printed))]
pub fn print_line<const N: usize>(out: &mut ArrayString<N>, number: u64, line: &[u8])
    requires { array_string_len out.old + answer_room ≤ N }
    ensures text { out.new.bytes ≡ out.old.bytes ++ printed number line.now }
    ensures within { array_string_len out.new ≤ array_string_len out.old + answer_room }
{
    print_said(out, number, read_line(line));
}
