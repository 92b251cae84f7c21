// The work sheet of a case and what it is rated: the fields, then the numbers or the refusal, and an empty line.
ghost use Rattle.std.specs.Prelude.{◌≡◌, ◌++◌, ◌+◌, ◌≤◌};
ghost use Rattle.arrayvec.specs.ArrayString.{array_string_len};
ghost use Rattle.rating.specs.Rate.{answer_of};
ghost use Rattle.sheet_text.specs.Sheet as Sheet;
ghost use Rattle.sheet_text.specs.Laws.Room.{sheet_room};

use crate::fields_part::put_fields;
use crate::rated::put_rated;
use crate::refusals::put_refusal;
use arrayvec::ArrayString;
use fields::Case;
use rating::rate::Rated;
use rating::refusal::Refusal;

// A refused case shows every field, so that a value which its arrangement has no use for is seen.
#[tactic(auto, unfolding(crate::specs::Sheet::sheet_text))]
pub fn put_sheet<const N: usize>(out: &mut ArrayString<N>, x: Case, rated: Result<Rated, Refusal>)
    requires { array_string_len out.old + sheet_room ≤ N }
    ensures text { out.new.bytes ≡ out.old.bytes ++ Sheet.sheet_text x (answer_of rated) }
    ensures within { array_string_len out.new ≤ array_string_len out.old + sheet_room }
{
    match rated {
        Ok(rated) => {
            put_fields(out, x, 0);
            put_rated(out, x, rated);
        }
        Err(refusal) => {
            put_fields(out, x, u32::from(refusal));
            put_refusal(out, refusal);
        }
    }
    out.push_str("\n");
}
