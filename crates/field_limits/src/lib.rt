// The limits of the fields of a case, which arrangements have a field, and which fields refusals 3 and 4 are about (docs/RATING.md, 'The
// fields of a case'). That the table is the definition's is proved once, over the whole table; a field's row has it from there.
#![tactic(auto)]

ghost use Rattle.std.specs.Prelude.{◌≡◌, ◌<◌, map};
ghost use Rattle.fields.specs.Fields.{width};
ghost use Rattle.field_limits.specs.Limits as Limits;
ghost use Rattle.field_limits.specs.Marked as Marked;
ghost use Rattle.field_limits.specs.Table.{limits_of};

use fields::{ARRANGEMENT, Case, DRY_RATIO, ISOTHERM, WIDTH};
use stages::resistance::signed;

// The arrangements by the word of a case: all; those whose current alternates; that with armour; and those whose cores lie in one cable.
const ALL: [u32; 7] = [1, 2, 3, 4, 5, 6, 7];

const ALTERNATING: [u32; 6] = [1, 2, 3, 4, 5, 6];

const ARMOURED: [u32; 1] = [5];

const THREE_CORES: [u32; 2] = [5, 6];

// The limits of a field, which are included; whether its word is in two's complement; and the arrangements that have it.
#[derive(Clone, Copy)]
struct Row {
    low: i64,
    high: i64,
    signed: bool,
    arrangements: &'static [u32],
}

// A row on one line. Macros, since no constant may call a function.
macro_rules! plain {
    ($low:expr, $high:expr, $arrangements:expr) => {
        Row {
            low: $low,
            high: $high,
            signed: false,
            arrangements: $arrangements,
        }
    };
}

macro_rules! temperature {
    ($low:expr, $high:expr, $arrangements:expr) => {
        Row {
            low: $low,
            high: $high,
            signed: true,
            arrangements: $arrangements,
        }
    };
}

// In the order of a case's fields.
const ROWS: [Row; WIDTH] = [
    // the arrangement, the conductor's code, f, θc and θa
    plain!(1, 7, &ALL),
    plain!(1, 8, &ALL),
    plain!(1000, 6500, &ALTERNATING),
    temperature!(4000, 25000, &ALL),
    temperature!(-4000, 6000, &ALL),
    // R0, dc, s, ds, Di and U0
    plain!(5000, 20000000, &ALL),
    plain!(100, 10000, &ALL),
    plain!(100, 1000000, &ALTERNATING),
    plain!(100, 20000, &ALL),
    plain!(100, 30000, &ALL),
    plain!(0, 300000, &ALL),
    // e and t
    plain!(100, 800, &ALTERNATING),
    plain!(1, 10000, &ALTERNATING),
    // the sheath: d, its metal, Rs0 and θs
    plain!(100, 50000, &ALTERNATING),
    plain!(1, 6, &ALTERNATING),
    plain!(1000, 20000000, &ALTERNATING),
    temperature!(-4000, 25000, &ALTERNATING),
    // the armour: its metal, RA0 and θA; c; and dA
    plain!(1, 6, &ARMOURED),
    plain!(1000, 20000000, &ARMOURED),
    temperature!(-4000, 25000, &ARMOURED),
    plain!(100, 50000, &THREE_CORES),
    plain!(100, 50000, &ARMOURED),
    // T1 to T4
    plain!(1000, 10000000, &ALL),
    plain!(0, 10000000, &ALL),
    plain!(0, 10000000, &ALL),
    plain!(10000, 20000000, &ALL),
    // Ud, ρ, θx and Q
    plain!(0, 300000, &ALL),
    plain!(1000, 5000, &ALL),
    temperature!(-4000, 25000, &ALL),
    plain!(0, 200000, &ALL),
];

fn all_rows() -> [Row; WIDTH]
    ensures { map limits_of result ≡ Limits.rows }
{
    ROWS
}

fn row_of(field: usize) -> Row
    requires { field < width }
    ensures { limits_of result ≡ Limits.row field }
{
    all_rows()[field]
}

// The case's arrangement has the field.
#[tactic(auto, using(crate::proofs::Laws::Behind::has_behind))]
pub fn has(x: Case, field: usize) -> bool
    ensures { result ≡ Marked.has x field }
{
    if field >= WIDTH {
        return false;
    }
    row_of(field).arrangements.contains(&x[ARRANGEMENT])
}

// What a field says.
fn value(x: Case, field: usize) -> i64
    requires { field < width }
    ensures { result ≡ Marked.value x field }
{
    if row_of(field).signed {
        signed(x[field])
    } else {
        i64::from(x[field])
    }
}

// Where no soil dries out ρ is 0, which is below its limits.
fn allowed(x: Case, field: usize) -> bool
    requires { field < width }
    ensures { result ≡ Marked.allowed x field }
{
    let row = row_of(field);
    let at = value(x, field);
    (field == DRY_RATIO) & (x[DRY_RATIO] == 0) | (row.low <= at) & (at <= row.high)
}

// Refusal 3 is about the field.
#[tactic(auto, using(crate::proofs::Laws::Behind::outside_behind), unfolding(crate::specs::Marked::outside))]
pub fn outside(x: Case, field: usize) -> bool
    ensures { result ≡ Marked.outside x field }
{
    if field >= WIDTH {
        return false;
    }
    has(x, field) & !allowed(x, field)
}

// Refusal 4 is about the field.
#[tactic(auto, using(crate::proofs::Laws::Behind::stray_behind))]
pub fn stray(x: Case, field: usize) -> bool
    ensures { result ≡ Marked.stray x field }
{
    if field >= WIDTH {
        return false;
    }
    let unused = !has(x, field) | (field == ISOTHERM) & (x[DRY_RATIO] == 0);
    unused & (x[field] != 0)
}
