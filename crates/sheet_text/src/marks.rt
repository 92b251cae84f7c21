// The rows that a sheet has, and those that a refusal is about.
ghost use Rattle.std.specs.Prelude.{◌≡◌, ◌≤◌, length};
ghost use Rattle.sheet_text.specs.Fields as Fields;
ghost use Rattle.sheet_text.specs.Marks.{mark};

use field_limits::{has, outside, stray};
use fields::Case;

// By the number of a case's answer, 0 of a rated one.
#[tactic(auto, unfolding(crate::specs::Fields::shown))]
pub(crate) fn shown(x: Case, answer: u32, field: usize) -> bool
    ensures { result ≡ Fields.shown x answer field }
{
    if answer == 0 { has(x, field) } else { true }
}

#[tactic(auto, unfolding(crate::specs::Fields::marked))]
pub(crate) fn marked(x: Case, answer: u32, field: usize) -> bool
    ensures { result ≡ Fields.marked x answer field }
{
    match answer {
        1 => field == 0,
        2 => field == 1,
        3 => outside(x, field),
        4 => stray(x, field),
        _ => false,
    }
}

#[tactic(auto, unfolding(crate::specs::Marks::mark))]
pub(crate) fn mark(marked: bool) -> &'static str
    ensures text { result.now ≡ mark marked }
    ensures short { length result.now ≤ 2 }
{
    if marked { "> " } else { "  " }
}
