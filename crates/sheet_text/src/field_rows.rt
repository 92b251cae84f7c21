// The fields of a case, a row for each, in the units that a person reads (docs/FIELDS.md has the units of the fields themselves).
ghost use Rattle.std.specs.Prelude.{◌≡◌, ◌<◌, get_or, map};
ghost use Rattle.fields.specs.Fields.{width};
ghost use Rattle.row_text.specs.Laws.Row.{label_text};
ghost use Rattle.sheet_text.specs.FieldRows as FieldRows;
ghost use Rattle.sheet_text.specs.Laws.Tables.{field_text};

use crate::codes::{ARRANGEMENTS, CONDUCTORS, METALS, words_of};
use fields::WIDTH;
use row_text::row::Label;

// Whether the field is in two's complement; and what its numbers stand for, if it is a code.
#[derive(Clone, Copy)]
pub(crate) struct Field {
    label: Label<'static>,
    signed: bool,
    names: &'static [&'static str],
}

// Rows on one line. Macros, since no constant may call a function.
macro_rules! plain {
    ($symbol:expr, $unit:expr, $words:expr, $decimals:expr) => {
        Field {
            label: Label {
                symbol: $symbol,
                unit: $unit,
                words: $words,
                decimals: $decimals,
            },
            signed: false,
            names: &[],
        }
    };
}

macro_rules! temperature {
    ($symbol:expr, $words:expr) => {
        Field {
            label: Label {
                symbol: $symbol,
                unit: "deg C",
                words: $words,
                decimals: 2,
            },
            signed: true,
            names: &[],
        }
    };
}

macro_rules! code {
    ($symbol:expr, $limits:expr, $names:expr) => {
        Field {
            label: Label {
                symbol: $symbol,
                unit: $limits,
                words: "",
                decimals: 0,
            },
            signed: false,
            names: $names,
        }
    };
}

// The rows, in the order of a case's fields. The words end in the limits.
static FIELDS: [Field; WIDTH] = [
    code!("arrangement", "[1 to 7]", &ARRANGEMENTS),
    code!("conductor", "[1 to 8]", &CONDUCTORS),
    plain!("f", "Hz", "frequency [10 to 65]", 2),
    temperature!("theta_c", "conductor [40 to 250]"),
    temperature!("theta_a", "ambient [-40 to 60]"),
    plain!(
        "R0",
        "uohm/m",
        "conductor, d.c., at 20 deg C [5 to 20000]",
        3
    ),
    plain!("dc", "mm", "conductor diameter [1 to 100]", 2),
    plain!("s", "mm", "spacing of the axes [1 to 10000]", 2),
    plain!("ds", "mm", "diameter over conductor screen [1 to 200]", 2),
    plain!("Di", "mm", "diameter over insulation [1 to 300]", 2),
    plain!("U0", "V", "voltage to earth [0 to 300000]", 0),
    plain!("e", "", "relative permittivity [1 to 8]", 2),
    plain!("t", "", "loss factor [0.00001 to 0.1]", 5),
    plain!("d", "mm", "mean sheath diameter [1 to 500]", 2),
    code!("sheath", "[1 to 6]", &METALS),
    plain!("Rs0", "uohm/m", "sheath, at 20 deg C [1 to 20000]", 3),
    temperature!("theta_s", "sheath [-40 to 250]"),
    code!("armour", "[1 to 6]", &METALS),
    plain!("RA0", "uohm/m", "armour, a.c., at 20 deg C [1 to 20000]", 3),
    temperature!("theta_A", "armour [-40 to 250]"),
    plain!("c", "mm", "core axis to cable axis [1 to 500]", 2),
    plain!("dA", "mm", "mean armour diameter [1 to 500]", 2),
    plain!("T1", "K.m/W", "conductor to sheath [0.001 to 10]", 6),
    plain!("T2", "K.m/W", "sheath to armour [0 to 10]", 6),
    plain!("T3", "K.m/W", "outer covering [0 to 10]", 6),
    plain!("T4", "K.m/W", "surface to ambient [0.01 to 20]", 6),
    plain!("Ud", "V", "dielectric loss counts from [0 to 300000]", 0),
    plain!(
        "rho",
        "",
        "dry to moist soil resistivity [1 to 5, 0 for none]",
        3
    ),
    temperature!("theta_x", "critical isotherm, if rho is not 0 [-40 to 250]"),
    plain!("Q", "W/m", "sun's heat taken up [0 to 200]", 3),
];

#[tactic(auto, unfolding(crate::specs::FieldRows::field_rows))]
fn field_rows() -> &'static [Field]
    ensures { map field_text result.now ≡ FieldRows.field_rows }
{
    &FIELDS
}

pub(crate) fn field_at(i: usize) -> &'static Field
    requires { i < width }
    ensures { field_text result.now ≡ get_or FieldRows.field_rows i FieldRows.no_field }
{
    &field_rows()[i]
}

// A field's label, where what a code stands for is its words.
#[tactic(auto, unfolding(crate::specs::FieldRows::label_at))]
pub(crate) fn label_at(field: &Field, x: u32) -> Label<'static>
    ensures { label_text result ≡ FieldRows.label_at (field_text field.now) x }
{
    let mut label = field.label;
    if !field.names.is_empty() {
        label.words = words_of(field.names, x);
    }
    label
}

#[tactic(auto, unfolding(crate::specs::FieldRows::number_at))]
pub(crate) fn number_at(field: &Field, x: u32) -> i128
    ensures { result ≡ FieldRows.number_at (field_text field.now) x }
{
    if field.signed {
        return i128::from(x.cast_signed());
    }
    i128::from(x)
}
