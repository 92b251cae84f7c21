// The heading of a case, which is its last comment line before it.
ghost use Rattle.std.specs.Prelude.{true, cond, [], ◌≡◌, ◌++◌, ◌+◌, ◌≤◌, codes, drop, length};
ghost use Rattle.arrayvec.specs.ArrayString.{array_string_len};
ghost use Rattle.text.specs.Words.{is_empty};
ghost use Rattle.sheet_lines.specs.Heading as Spec;
ghost use Rattle.sheet_lines.specs.Heading.{Heads};

use arrayvec::ArrayString;
use decimals::put_decimal;
use std::str::from_utf8;
use text::line::{LONGEST, text_of};
use text::words::skip_blanks;

// A comment is at most as long as a line that is read.
pub type Heading = ArrayString<LONGEST>;

#[tactic(auto, unfolding(crate::specs::Heading::is_comment))]
fn is_comment(line: &[u8]) -> bool
    ensures value { result ≡ Spec.is_comment line.now }
    ensures short { result ≡ true → length line.now ≤ 1023 }
{
    match line.first() {
        Some(first) => (line.len() <= LONGEST) & (*first == b'#'),
        None => false,
    }
}

// What stands behind the first byte.
fn behind(text: &[u8]) -> &[u8]
    ensures { result.now ≡ drop 1 text.now }
{
    text.get(1..).unwrap_or(&[])
}

// The text behind the sign, without the blanks in front and a carriage return at the end.
#[tactic(auto, unfolding(crate::specs::Heading::comment, text::specs::Words::drop_blanks))]
fn comment(line: &[u8]) -> &[u8]
    ensures text { result.now ≡ Spec.comment line.now }
    ensures within { length result.now ≤ length line.now }
{
    let text = behind(text_of(line));
    &text[skip_blanks(text, 0)..]
}

// The heading of the cases after a line. A comment that is not UTF-8 is none.
pub(crate) fn head(heading: &mut Heading, line: &[u8])
    ensures { Heads line.now heading.old.bytes heading.new.bytes }
{
    if is_comment(line) {
        heading.clear();
        heading.push_str(from_utf8(comment(line)).unwrap_or(""));
    }
}

// A heading behind its colon, if there is one.
#[tactic(auto, unfolding(text::specs::Words::is_empty))]
fn put_title<const N: usize>(out: &mut ArrayString<N>, heading: &str)
    requires { array_string_len out.old + 2 + length heading.now ≤ N }
    ensures text { out.new.bytes ≡ out.old.bytes ++ cond (is_empty heading.now) [] (codes ": " ++ heading.now) }
    ensures within { array_string_len out.new ≤ array_string_len out.old + 2 + length heading.now }
{
    if !heading.is_empty() {
        out.push_str(": ");
        out.push_str(heading);
    }
}

#[tactic(auto, unfolding(crate::specs::Heading::heading_text))]
pub(crate) fn put_heading<const N: usize>(out: &mut ArrayString<N>, number: u64, heading: &str)
    requires { array_string_len out.old + 40 + length heading.now ≤ N }
    ensures text { out.new.bytes ≡ out.old.bytes ++ Spec.heading_text number heading.now }
    ensures within { array_string_len out.new ≤ array_string_len out.old + 40 + length heading.now }
{
    out.push_str("CASE on line ");
    put_decimal(out, number);
    put_title(out, heading);
    out.push_str("\n");
}
