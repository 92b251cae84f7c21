// Whole numbers of two limbs of 64 bits, and the operations that pass through them: a·b/c rounded either way, at any c
// and at 10^12. And the square root of a u64.
#![tactic(auto)]

pub mod division;
pub mod limbs;
pub mod quotient;
pub mod ratio;
pub mod root;
pub mod rounding;
pub mod trillion;
