// The fields of a case by name (docs/RATING.md, 'The fields of a case'), their count and the type of a case. Every crate takes them from
// here.
#![tactic(auto)]

// How many inputs a case has.
pub const WIDTH: usize = 30;

// How many it had when RBK1 was the mark of new books. The inputs behind them count as zero.
pub const OLDER_WIDTH: usize = 26;

// The inputs of a case. An array with names for its places, and not a struct: C and a book have the words in this order, and a struct
// would be copied field by field.
pub type Case = [u32; WIDTH];

pub const ARRANGEMENT: usize = 0;

pub const CONDUCTOR: usize = 1;

// f
pub const FREQUENCY: usize = 2;

// θc and θa
pub const CONDUCTOR_TEMPERATURE: usize = 3;

pub const AMBIENT_TEMPERATURE: usize = 4;

// R0
pub const CONDUCTOR_RESISTANCE: usize = 5;

// dc
pub const CONDUCTOR_DIAMETER: usize = 6;

// s
pub const SPACING: usize = 7;

// ds and Di
pub const SCREEN_DIAMETER: usize = 8;

pub const INSULATION_DIAMETER: usize = 9;

// U0
pub const VOLTAGE: usize = 10;

// e and t
pub const PERMITTIVITY: usize = 11;

pub const LOSS_FACTOR: usize = 12;

// d
pub const SHEATH_DIAMETER: usize = 13;

pub const SHEATH_METAL: usize = 14;

pub const SHEATH_RESISTANCE: usize = 15;

pub const SHEATH_TEMPERATURE: usize = 16;

pub const ARMOUR_METAL: usize = 17;

pub const ARMOUR_RESISTANCE: usize = 18;

pub const ARMOUR_TEMPERATURE: usize = 19;

// c
pub const AXIS_DISTANCE: usize = 20;

// dA
pub const ARMOUR_DIAMETER: usize = 21;

pub const T1: usize = 22;

pub const T2: usize = 23;

pub const T3: usize = 24;

pub const T4: usize = 25;

// The voltage to earth from which the dielectric loss counts.
pub const LOSS_VOLTAGE: usize = 26;

// ρ: the resistivity of dry soil in thousandths of that of moist soil, or 0 where no soil dries out.
pub const DRY_RATIO: usize = 27;

// θx: the temperature of the critical isotherm, within which the soil dries out.
pub const ISOTHERM: usize = 28;

// Q: the sun's heat taken up, in mW/m.
pub const SOLAR_HEAT: usize = 29;
