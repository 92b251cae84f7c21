// The numbers of a rated case, a row for each, in the units that a person reads (docs/RATING.md has what they mean).
ghost use Rattle.std.specs.Prelude.{false, cond, [], ◌≡◌, ◌++◌, ◌+◌, ◌*◌, ◌≤◌, ◌<◌, length, map};
ghost use Rattle.arrayvec.specs.ArrayString.{array_string_len};
ghost use Rattle.row_text.specs.Row.{row};
ghost use Rattle.row_text.specs.Laws.Row.{Short, label_text, row_room};
ghost use Rattle.sheet_text.specs.NumberRows as NumberRows;
ghost use Rattle.sheet_text.specs.NumberRows.{has};
ghost use Rattle.sheet_text.specs.Marks.{mark};
ghost use Rattle.sheet_text.specs.Numbers.{digits, numbers_text};
ghost use Rattle.sheet_text.specs.Laws.Tables.{AreShort, number_text};

use crate::has::Has;
use arrayvec::ArrayString;
use row_text::row::{Label, put_row};

// A number's label, and the arrangements that have its row.
#[derive(Clone, Copy)]
pub(crate) struct Number {
    label: Label<'static>,
    having: Has,
}

// A row on one line. A macro, since no constant may call a function.
macro_rules! number {
    ($symbol:expr, $unit:expr, $words:expr, $decimals:expr, $having:expr) => {
        Number {
            label: Label {
                symbol: $symbol,
                unit: $unit,
                words: $words,
                decimals: $decimals,
            },
            having: $having,
        }
    };
}

// The digits of the column after the point.
pub(crate) const DIGITS: usize = 16;

// In the order of the sheet's numbers.
static SHEET_ROWS: [Number; 13] = [
    number!("R'", "uohm/m", "conductor, d.c., at theta_c", 10, Has::All),
    number!("Rs", "uohm/m", "sheath, at theta_s", 10, Has::Alternating),
    number!(
        "RA",
        "uohm/m",
        "armour, a.c., at theta_A",
        10,
        Has::Armoured
    ),
    number!("B", "uohm/m", "4 pi f / 10^7", 10, Has::Alternating),
    number!("ys", "", "skin effect factor", 12, Has::Alternating),
    number!("yp", "", "proximity effect factor", 12, Has::Alternating),
    number!(
        "R",
        "uohm/m",
        "conductor, effective, at theta_c",
        10,
        Has::All
    ),
    number!("X", "uohm/m", "sheath reactance", 10, Has::Reactive),
    number!("S", "uohm/m", "sheath loss / I^2", 10, Has::Alternating),
    number!("W", "uohm/m", "armour loss / I^2", 10, Has::Armoured),
    number!(
        "Wd",
        "W/m",
        "dielectric loss of a core",
        12,
        Has::Alternating
    ),
    number!(
        "dd",
        "K",
        "rise by the dielectric loss",
        9,
        Has::Alternating
    ),
    number!("E", "K/A^2", "rise by the current / I^2", 16, Has::All),
];

static LOSS_ROWS: [Number; 6] = [
    number!(
        "lambda1",
        "",
        "sheath loss factor, S / R",
        6,
        Has::Alternating
    ),
    number!("lambda2", "", "armour loss factor, W / R", 6, Has::Armoured),
    number!("Pc", "W/m", "conductor loss of a core", 6, Has::All),
    number!("Ps", "W/m", "sheath loss of a core", 6, Has::Alternating),
    number!("PA", "W/m", "armour loss of a core", 6, Has::Armoured),
    number!(
        "Pd",
        "W/m",
        "dielectric loss of a core",
        6,
        Has::Alternating
    ),
];

#[tactic(auto, unfolding(crate::specs::NumberRows::sheet_rows), using(crate::proofs::Short::sheet_rows_short))]
pub(crate) fn sheet_rows() -> &'static [Number]
    ensures rows { map number_text result.now ≡ NumberRows.sheet_rows }
    ensures count { length result.now ≡ 13 }
    ensures short { AreShort (map number_text result.now) }
{
    &SHEET_ROWS
}

#[tactic(auto, unfolding(crate::specs::NumberRows::loss_rows), using(crate::proofs::Short::loss_rows_short))]
pub(crate) fn loss_rows() -> &'static [Number]
    ensures rows { map number_text result.now ≡ NumberRows.loss_rows }
    ensures count { length result.now ≡ 6 }
    ensures short { AreShort (map number_text result.now) }
{
    &LOSS_ROWS
}

// A row, if arrangement a has it. The value by reference: passed by value, one of a list would have to be shown to fit its type.
#[tactic(auto, unfolding(crate::specs::Marks::mark))]
fn put_number<const N: usize>(out: &mut ArrayString<N>, number: &Number, a: u32, value: &i128)
    requires room { array_string_len out.old + row_room ≤ N }
    requires short { Short (label_text number.now.label) }
    ensures text { out.new.bytes ≡ out.old.bytes
        ++ cond (has number.now.having a) (row (mark false) digits (label_text number.now.label) value.now) [] }
    ensures within { array_string_len out.new ≤ array_string_len out.old + row_room }
{
    if number.having.has(a) {
        put_row(out, "  ", DIGITS, &number.label, *value);
    }
}

// The rows that arrangement a has, each with its value.
pub(crate) fn put_numbers<const N: usize>(
    out: &mut ArrayString<N>,
    rows: &[Number],
    values: &[i128],
    a: u32,
)
    requires room { array_string_len out.old + length rows.now * row_room ≤ N }
    requires each { length rows.now ≤ length values.now }
    requires short { AreShort (map number_text rows.now) }
    ensures text { out.new.bytes ≡ out.old.bytes ++ numbers_text a (map number_text rows.now) values.now }
    ensures within { array_string_len out.new ≤ array_string_len out.old + length rows.now * row_room }
{
    for i in 0..rows.len() {
        put_number(out, &rows[i], a, &values[i]);
    }
}
