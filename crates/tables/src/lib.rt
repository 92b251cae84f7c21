// The constant tables of docs/RATING.md: ks and kp by conductor code, and the metals' coefficients. That a table is the definition's is
// proved once, over the whole table; a code's row has it from there. Codes are words, as the case of the C interface has them.
#![tactic(auto)]

ghost use Rattle.std.specs.Prelude.{true, ◌≡◌};
ghost use Rattle.formulas.specs.Laws.Bounds.{most_conductor_code, most_metal_code};
ghost use Rattle.formulas.specs.Laws.Ranges.{In};
ghost use Rattle.formulas.specs.Laws.TableRule.{every_row};
ghost use Rattle.formulas.specs.Tables as Tables;
ghost use Rattle.tables.specs.Laws.Agree.{FactorsOf, factors_agree, coefficient_agrees};

// A row of the conductor table, in thousandths. No factor is above 1000, so that sixteen bits hold it.
#[derive(Clone, Copy)]
struct Factors {
    ks: u16,
    kp: u16,
}

const FACTORS: [Factors; 8] = [
    // copper: round dried, round not dried, segmental
    Factors { ks: 1000, kp: 800 },
    Factors { ks: 1000, kp: 1000 },
    Factors { ks: 435, kp: 370 },
    // aluminium: round dried, round not dried, of 4, 5 and 6 segments
    Factors { ks: 1000, kp: 800 },
    Factors { ks: 1000, kp: 1000 },
    Factors { ks: 280, kp: 370 },
    Factors { ks: 190, kp: 370 },
    Factors { ks: 120, kp: 370 },
];

// In 10^-5 per K: lead, aluminium, copper, bronze, stainless steel, steel.
const COEFFICIENTS: [u32; 6] = [400, 403, 393, 300, 0, 450];

fn all_factors() -> [Factors; 8]
    ensures { every_row factors_agree result ≡ true }
{
    FACTORS
}

fn factors_of(code: u32) -> Factors
    requires { In 1 most_conductor_code code }
    ensures { FactorsOf code result }
{
    // as: std has no From between words and usize
    all_factors()[(code - 1) as usize]
}

// Two functions, since the definitions are two. That a code is in range stays a clause: it would have to be shown anew at each call.
pub fn ks(code: u32) -> u32
    requires { In 1 most_conductor_code code }
    ensures { result ≡ Tables.ks code }
{
    u32::from(factors_of(code).ks)
}

pub fn kp(code: u32) -> u32
    requires { In 1 most_conductor_code code }
    ensures { result ≡ Tables.kp code }
{
    u32::from(factors_of(code).kp)
}

fn all_coefficients() -> [u32; 6]
    ensures { every_row coefficient_agrees result ≡ true }
{
    COEFFICIENTS
}

pub fn coefficient(metal: u32) -> u32
    requires { In 1 most_metal_code metal }
    ensures { result ≡ Tables.coefficient metal }
{
    all_coefficients()[(metal - 1) as usize]
}

pub fn conductor_metal(code: u32) -> u32
    ensures { result ≡ Tables.conductor_metal code }
{
    if code <= 3 { 3 } else { 2 }
}
