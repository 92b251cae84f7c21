// The numbers of a rated case: the sheet, the rating, and what the rating implies.
ghost use Rattle.std.specs.Prelude.{pos, ◌≡◌, ◌++◌, ◌+◌, ◌≤◌, map};
ghost use Rattle.arrayvec.specs.ArrayString.{array_string_len};
ghost use Rattle.row_text.specs.Laws.Row.{row_room};
ghost use Rattle.sheet_text.specs.Sheet as Sheet;
ghost use Rattle.sheet_text.specs.Laws.Room.{rated_room};

use crate::at_rating::put_implied;
use crate::numbers::{DIGITS, put_numbers, sheet_rows};
use arrayvec::ArrayString;
use fields::{ARRANGEMENT, Case, DRY_RATIO};
use rating::rate::{Rated, SHEET};
use row_text::row::{Label, put_row};

const RATING: Label<'static> = Label {
    symbol: "RATING",
    unit: "A",
    words: "largest continuous current",
    decimals: 3,
};

#[tactic(auto, unfolding(crate::specs::Sheet::rating_row))]
fn put_rating<const N: usize>(out: &mut ArrayString<N>, rating: u32)
    requires { array_string_len out.old + row_room ≤ N }
    ensures text { out.new.bytes ≡ out.old.bytes ++ Sheet.rating_row rating }
    ensures within { array_string_len out.new ≤ array_string_len out.old + row_room }
{
    put_row(out, "", DIGITS, &RATING, i128::from(rating));
}

// The numbers of a sheet, each with a sign.
fn wide(sheet: [u64; SHEET]) -> [i128; SHEET]
    ensures { result ≡ map pos sheet }
{
    let mut values = [0i128; SHEET];
    for i in 0..SHEET {
        values[i] = i128::from(sheet[i]);
    }
    values
}

#[tactic(auto, unfolding(crate::specs::Sheet::dry_text))]
fn put_dry<const N: usize>(out: &mut ArrayString<N>, x: Case)
    requires { array_string_len out.old + row_room ≤ N }
    ensures text { out.new.bytes ≡ out.old.bytes ++ Sheet.dry_text x }
    ensures within { array_string_len out.new ≤ array_string_len out.old + row_room }
{
    if x[DRY_RATIO] != 0 {
        out.push_str(
            "  In soil that dries out the smaller counts of this rating and the one with rho and theta_x 0.\n",
        );
    }
}

#[tactic(auto, unfolding(crate::specs::Sheet::rated_text))]
pub(crate) fn put_rated<const N: usize>(out: &mut ArrayString<N>, x: Case, rated: Rated)
    requires { array_string_len out.old + rated_room ≤ N }
    ensures text { out.new.bytes ≡ out.old.bytes
        ++ Sheet.rated_text x (record { number = 0; rating = rated.rating; sheet = rated.sheet }) }
    ensures within { array_string_len out.new ≤ array_string_len out.old + rated_room }
{
    out.push_str("SHEET\n");
    put_numbers(out, sheet_rows(), &wide(rated.sheet), x[ARRANGEMENT]);
    put_rating(out, rated.rating);
    put_dry(out, x);
    put_implied(out, x, rated);
}
