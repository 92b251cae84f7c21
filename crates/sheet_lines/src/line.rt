// What is printed for a line, and the heading after it.
ghost use Rattle.std.specs.Prelude.{◌≡◌, ◌++◌, ◌+◌, ◌≤◌};
ghost use Rattle.arrayvec.specs.ArrayString.{array_string_len};
ghost use Rattle.text.specs.declared.line.Said.TheVariants as Says;
ghost use Rattle.sheet_lines.specs.Heading.{Heads, printed, printed_for};
ghost use Rattle.sheet_lines.specs.Laws.Room.{printed_room};

use crate::heading::{Heading, head, put_heading};
use arrayvec::ArrayString;
use fields::Case;
use rate_text::print_said;
use rating::rate::rate;
use sheet_text::sheet::put_sheet;
use text::line::{Said, read_line};

// Room for what is printed for any line.
pub const ROOM: usize = 13000;

// A case's heading, and its sheet.
#[tactic(auto, unfolding(crate::specs::Heading::printed_for))]
fn put_case<const N: usize>(out: &mut ArrayString<N>, number: u64, heading: &Heading, x: Case)
    requires { array_string_len out.old + printed_room ≤ N }
    ensures text { out.new.bytes ≡ out.old.bytes ++ printed_for number heading.now.bytes (Says.Case x) }
    ensures within { array_string_len out.new ≤ array_string_len out.old + printed_room }
{
    put_heading(out, number, heading.as_str());
    put_sheet(out, x, rate(x));
}

// By what the line says. An unreadable line has the text that the program rate prints for it.
#[tactic(auto, unfolding(crate::specs::Heading::printed_for, rate_text::specs::Answers::printed_for))]
fn put_said<const N: usize>(out: &mut ArrayString<N>, number: u64, heading: &Heading, said: Said)
    requires { array_string_len out.old + printed_room ≤ N }
    ensures text { out.new.bytes ≡ out.old.bytes ++ printed_for number heading.now.bytes said }
    ensures within { array_string_len out.new ≤ array_string_len out.old + printed_room }
{
    match said {
        Said::PassedOver => {}
        Said::Case(x) => put_case(out, number, heading, x),
        Said::Unreadable => print_said(out, number, Said::Unreadable),
    }
}

// Appends what is printed for a line, given its number and its bytes without the line feed.
#[tactic(auto, unfolding(crate::specs::Heading::printed))]
pub fn print_line<const N: usize>(
    out: &mut ArrayString<N>,
    heading: &mut Heading,
    number: u64,
    line: &[u8],
)
    requires { array_string_len out.old + printed_room ≤ N }
    ensures text { out.new.bytes ≡ out.old.bytes ++ printed number heading.old.bytes line.now }
    ensures heads { Heads line.now heading.old.bytes heading.new.bytes }
    ensures within { array_string_len out.new ≤ array_string_len out.old + printed_room }
{
    put_said(out, number, heading, read_line(line));
    head(heading, line);
}
