// What a program says of a line, and what `rate` prints for it, written into a slice at a place,
// beside the functions of lib.rt, which append to a text: for a caller that has a buffer of its own.
// Each answers the place after what it wrote, and leaves the rest of the slice as it was. A bound on
// that place shows that the next one has room.
ghost use Rattle.std.specs.Prelude.{◌+◌, ◌≤◌, length};
ghost use Rattle.rate_text.specs.Answers.{about_line, answer_room, printed, printed_for};
ghost use Rattle.splice.specs.Put.{PutWithin};

use crate::ROOM;
use arrayvec::ArrayString;
use decimals::placed::put_decimal;
use text::bytes::put_bytes;
use text::line::{Said, read_line};

// Writes what is said of a line: its number, and a text, which may be any bytes.
pub fn put_about(out: &mut [u8], at: usize, number: u64, text: &[u8]) -> usize
    requires { at + 25 + length text.now ≤ length out.old }
    ensures { PutWithin out.old at (about_line number text.now) out.new result
        (at + 25 + length text.now) }
{
    let digits = put_bytes(out, at, b"line ");
    let rest = put_decimal(out, digits, number);
    put_bytes(out, rest, text)
}

// Writes what is printed for a line, given its number and what it says.
pub fn print_said(out: &mut [u8], at: usize, number: u64, said: Said) -> usize
    requires { at + answer_room ≤ length out.old }
    ensures { PutWithin out.old at (printed_for number said) out.new result (at + answer_room) }
{
    let mut answer = ArrayString::<ROOM>::new();
    crate::print_said(&mut answer, number, said);
    put_bytes(out, at, answer.as_str().as_bytes())
}

// Writes what is printed for a line, given its number and its bytes without the line feed.
pub fn print_line(out: &mut [u8], at: usize, number: u64, line: &[u8]) -> usize
    requires { at + answer_room ≤ length out.old }
    ensures { PutWithin out.old at (printed number line.now) out.new result (at + answer_room) }
{
    print_said(out, at, number, read_line(line))
}
