// What is shown of a rated case beside its sheet.

// The factors in millionths, the losses of a metre of one core in 10^-6 W/m, and the temperatures in hundredths of a degree. No number of a
// sheet is too large for this type, so that nothing is asked of a caller.
#[derive(Clone, Copy, Debug, PartialEq, Eq)]
pub struct Implied {
    pub sheath_factor: i128,
    pub armour_factor: i128,
    pub conductor_loss: i128,
    pub sheath_loss: i128,
    pub armour_loss: i128,
    pub dielectric_loss: i128,
    pub sheath_temperature: i128,
    pub armour_temperature: i128,
    pub surface_temperature: i128,
}
