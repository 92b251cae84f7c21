// A line read as a case: whether it is one, and its numbers (docs/FIELDS.md). A line of blanks alone,
// or that begins with `#`, is passed over, so that a file of cases can have remarks.
ghost use Rattle.std.specs.Prelude.{◌≡◌, ◌-◌, ◌≤◌, length, take, drop, replicate};
ghost use Rattle.text.specs.Line.{case_fields, case_of, read_line, says, text_length};
ghost use Rattle.fields.specs.Fields.{width};
ghost use Rattle.text.specs.Laws.Leading.{WordAt};

use crate::number::{LARGEST, number_in, read_number};
use crate::words::{is_past_word, skip_blanks, skip_word};
use fields::{Case, OLDER_WIDTH, WIDTH};

// The most bytes of a line that is read, without its line feed.
pub const LONGEST: usize = 1023;

// What a line says: nothing, a case, or that it cannot be read. Not a Result of an Option: an
// unreadable line is an answer like the others, and no step passes it on.
#[derive(Clone, Copy, Debug, PartialEq, Eq)]
pub enum Said {
    PassedOver,
    Case(Case),
    Unreadable,
}

// Where a word ends, and what it says: a type of its own, as number.rt says of its like.
#[derive(Clone, Copy)]
struct Word {
    to: usize,
    said: Option<u32>,
}

// The word at `from`. The usual word has digits alone and is passed over once; any other is passed
// to its end and then read.
fn read_word(s: &[u8], from: usize) -> Word
    requires { from ≤ length s.now }
    ensures { WordAt s.now from result.to result.said }
{
    if 10 <= s.len() - from {
        if let Some(number) = number_in(s, from, LARGEST) {
            if is_past_word(s, number.to) {
                return Word {
                    to: number.to,
                    said: Some(number.value),
                };
            }
        }
    }
    let end = skip_word(s, from);
    let said = read_number(&s[from..end]);
    Word { to: end, said }
}

// What a line of `count` numbers says, which are the first of these fields. The others are zero.
pub fn case_of(fields: Case, count: usize) -> Said
    requires fits { count ≤ width }
    requires zeros { drop count fields ≡ replicate (width - count) 0 }
    ensures { result ≡ case_of (take count fields) }
{
    if (count == WIDTH) | (count == OLDER_WIDTH) {
        return Said::Case(fields);
    }
    Said::Unreadable
}

// As many numbers as a case has, or as one of the older width has, and nothing but blanks after them.
fn read_fields(s: &[u8]) -> Said
    ensures { result ≡ case_fields s.now }
{
    let mut fields = [0u32; WIDTH];
    let mut at = 0;
    for i in 0..WIDTH {
        let from = skip_blanks(s, at);
        if s.len() <= from {
            return case_of(fields, i);
        }
        let word = read_word(s, from);
        let Some(x) = word.said else {
            return Said::Unreadable;
        };
        fields[i] = x;
        at = word.to;
    }
    if skip_blanks(s, at) < s.len() {
        return Said::Unreadable;
    }
    Said::Case(fields)
}

// A line with no carriage return at its end.
fn read_text(s: &[u8]) -> Said
    ensures { result ≡ says s.now }
{
    if s.len() <= skip_blanks(s, 0) {
        return Said::PassedOver;
    }
    if s[0] == b'#' {
        return Said::PassedOver;
    }
    read_fields(s)
}

// A line without one carriage return at its end.
pub fn text_of(line: &[u8]) -> &[u8]
    ensures { result.now ≡ take (text_length line.now) line.now }
{
    line.strip_suffix(b"\r").unwrap_or(line)
}

// What a line says, without its line feed. The limit counts the carriage return.
pub fn read_line(line: &[u8]) -> Said
    ensures { result ≡ read_line line.now }
{
    if LONGEST < line.len() {
        return Said::Unreadable;
    }
    read_text(text_of(line))
}
