// What a rating implies, in rows.
ghost use Rattle.std.specs.Prelude.{◌≡◌, ◌++◌, ◌+◌, ◌*◌, ◌≤◌, length};
ghost use Rattle.std.specs.Int.{w32};
ghost use Rattle.std.proofs.Common.{to_z};
ghost use Rattle.arrayvec.specs.ArrayString.{array_string_len};
ghost use Rattle.row_text.specs.Value.{value};
ghost use Rattle.row_text.specs.Laws.Row.{row_room};
ghost use Rattle.sheet_text.specs.NumberRows.{has};
ghost use Rattle.sheet_text.specs.Sheet as Sheet;
ghost use Rattle.sheet_text.specs.Laws.Room.{implied_room};

use crate::has::Has;
use crate::numbers::{DIGITS, loss_rows, put_numbers};
use arrayvec::ArrayString;
use fields::{ARMOUR_TEMPERATURE, ARRANGEMENT, Case, SHEATH_TEMPERATURE};
use implied::implied;
use implied::values::Implied;
use rating::rate::Rated;
use row_text::row::{Label, put_row};
use row_text::value::put_value;

// Room for what is said of a temperature, and the one that the case gives.
type Given = ArrayString<100>;

// Words that end in the temperature of a field.
#[tactic(auto, unfolding(crate::specs::Sheet::given))]
fn given(words: &str, theta: u32) -> Given
    requires { length words.now ≤ 20 }
    ensures text { result.bytes ≡ Sheet.given words.now (to_z w32 theta) }
    ensures short { length result.bytes ≤ 80 }
{
    let mut text = Given::new();
    text.push_str(words);
    put_value(&mut text, i128::from(theta.cast_signed()), 2, 0, 2);
    text
}

// A temperature by reference: passed by value it would have to be shown to fit its type.
#[tactic(auto, unfolding(crate::specs::Sheet::temperature_row, crate::specs::Marks::mark))]
fn put_temperature<const N: usize>(
    out: &mut ArrayString<N>,
    symbol: &str,
    words: &str,
    theta: &i128,
)
    requires room { array_string_len out.old + row_room ≤ N }
    requires short_symbol { length symbol.now ≤ 11 }
    requires short_words { length words.now ≤ 80 }
    ensures text { out.new.bytes ≡ out.old.bytes ++ Sheet.temperature_row symbol.now words.now theta.now }
    ensures within { array_string_len out.new ≤ array_string_len out.old + row_room }
{
    let label = Label {
        symbol,
        unit: "deg C",
        words,
        decimals: 2,
    };
    put_row(out, "  ", DIGITS, &label, *theta);
}

// The temperature of a part that only some arrangements have, beside the one that the case gives.
#[tactic(auto, unfolding(crate::specs::Sheet::beside))]
fn put_beside<const N: usize>(
    out: &mut ArrayString<N>,
    is_there: bool,
    symbol: &str,
    words: &str,
    by_case: u32,
    theta: &i128,
)
    requires room { array_string_len out.old + row_room ≤ N }
    requires short_symbol { length symbol.now ≤ 11 }
    requires short_words { length words.now ≤ 20 }
    ensures text { out.new.bytes ≡ out.old.bytes
        ++ Sheet.beside is_there symbol.now words.now (to_z w32 by_case) theta.now }
    ensures within { array_string_len out.new ≤ array_string_len out.old + row_room }
{
    if is_there {
        let words = given(words, by_case);
        put_temperature(out, symbol, words.as_str(), theta);
    }
}

// Of sheath and armour, where the arrangement has them, and of the surface.
#[tactic(auto, unfolding(crate::specs::Sheet::temperatures_text))]
fn put_temperatures<const N: usize>(out: &mut ArrayString<N>, x: Case, v: &Implied)
    requires { array_string_len out.old + 3 * row_room ≤ N }
    ensures text { out.new.bytes ≡ out.old.bytes ++ Sheet.temperatures_text x v.now }
    ensures within { array_string_len out.new ≤ array_string_len out.old + 3 * row_room }
{
    let sheathed = Has::Alternating.has(x[ARRANGEMENT]);
    let armoured = Has::Armoured.has(x[ARRANGEMENT]);
    let at_sheath = x[SHEATH_TEMPERATURE];
    let at_armour = x[ARMOUR_TEMPERATURE];
    put_beside(
        out,
        sheathed,
        "theta_s",
        "sheath, given as ",
        at_sheath,
        &v.sheath_temperature,
    );
    put_beside(
        out,
        armoured,
        "theta_A",
        "armour, given as ",
        at_armour,
        &v.armour_temperature,
    );
    put_temperature(out, "theta_e", "surface", &v.surface_temperature);
}

#[tactic(auto, unfolding(crate::specs::Sheet::implied_text))]
pub(crate) fn put_implied<const N: usize>(out: &mut ArrayString<N>, x: Case, rated: Rated)
    requires { array_string_len out.old + implied_room ≤ N }
    ensures text { out.new.bytes ≡ out.old.bytes ++ Sheet.implied_text x rated.rating rated.sheet }
    ensures within { array_string_len out.new ≤ array_string_len out.old + implied_room }
{
    let v = implied(x, rated);
    out.push_str("AT THE RATING\n");
    let losses = [
        v.sheath_factor,
        v.armour_factor,
        v.conductor_loss,
        v.sheath_loss,
        v.armour_loss,
        v.dielectric_loss,
    ];
    put_numbers(out, loss_rows(), &losses, x[ARRANGEMENT]);
    put_temperatures(out, x, &v);
}
