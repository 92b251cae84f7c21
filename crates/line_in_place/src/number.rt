// A number at a place of a chunk, in a line that is read where it stands. The chunk goes on for as
// many bytes as the longest number has, so that no byte is asked whether it is there.
ghost use Rattle.std.specs.Prelude.{◌+◌, ◌≤◌, length, IfSome};
ghost use Rattle.line_in_place.specs.NumberAt.{NumberAt};

use text::number::{LARGEST, LARGEST_NEGATED, Number, number_in};

// The number at `at`, if it has a minus sign.
fn negative_at(s: &[u8], at: usize) -> Option<Number>
    requires { at + 12 ≤ length s.now }
    ensures { IfSome result (λ n. NumberAt s.now at n.to n.value) }
{
    if s[at] != b'-' {
        return None;
    }
    let Number { to, value } = number_in(s, at + 1, LARGEST_NEGATED)?;
    Some(Number {
        to,
        value: value.wrapping_neg(),
    })
}

// The number at `at`, of at most ten digits.
pub(crate) fn number_at(s: &[u8], at: usize) -> Option<Number>
    requires { at + 12 ≤ length s.now }
    ensures { IfSome result (λ n. NumberAt s.now at n.to n.value) }
{
    number_in(s, at, LARGEST).or_else(|| negative_at(s, at))
}
