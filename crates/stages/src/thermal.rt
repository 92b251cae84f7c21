// The thermal resistances T1 to T4 of docs/RATING.md, which stages 9 and 10 take together: the first three in 10^-6 K·m/W, and T4, with
// what dry soil adds, in 10^-9.
#[derive(Clone, Copy)]
pub struct Thermal {
    pub t1: u64,
    pub t2: u64,
    pub t3: u64,
    pub t4: u64,
}
