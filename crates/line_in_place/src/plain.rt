// The usual line: the numbers of a case with one blank or tab between two of them, read in one pass
// over its bytes.
ghost use Rattle.std.specs.Prelude.{cond, true, ◌≡◌, ◌+◌, ◌<◌, ◌≤◌, eqb, get_or, length, IfSome};
ghost use Rattle.line_in_place.specs.Plain.{longest_plain};
ghost use Rattle.line_in_place.specs.Standing.{standing};
ghost use Rattle.fields.specs.Fields.{width};

use crate::Line;
use crate::number::number_at;
use fields::WIDTH;
use text::line::case_of;
use text::words::is_blank;

// The bytes of the longest plain line: for each number eleven and one after it, and a carriage
// return.
const LONGEST_PLAIN: usize = WIDTH * 12 + 1;

// Whether the longest plain line from `from` on would end in the chunk.
fn has_room(s: &[u8], from: usize) -> bool
    ensures { result ≡ true → from + longest_plain width ≤ length s.now }
{
    LONGEST_PLAIN <= s.len().saturating_sub(from)
}

// The place past a carriage return at `at`, if one stands there.
fn past_return(s: &[u8], at: usize) -> usize
    requires { at < length s.now }
    ensures { result ≡ cond (eqb (get_or s.now at 0) 13) (at + 1) at }
{
    if s[at] == b'\r' { at + 1 } else { at }
}

// The line from `from` on, if it is at most as many numbers as a case has, with one blank between two
// of them and none at its ends. What follows the last number is no blank.
pub(crate) fn plain_line(s: &[u8], from: usize) -> Option<Line>
    ensures { IfSome result (λ line. Some line ≡ standing s.now from) }
{
    if !has_room(s, from) {
        return None;
    }
    let mut fields = [0u32; WIDTH];
    let mut at = from;
    for i in 0..WIDTH {
        let number = number_at(s, at)?;
        fields[i] = number.value;
        if is_blank(s[number.to]) {
            at = number.to + 1;
            continue;
        }
        let to = past_return(s, number.to);
        if s[to] != b'\n' {
            return None;
        }
        return Some(Line {
            to,
            said: case_of(fields, i + 1),
        });
    }
    None
}
