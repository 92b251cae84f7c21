// What the codes of a case stand for, each at the place of its number. Where there is no code 0, none stands for anything there.
ghost use Rattle.std.specs.Prelude.{◌≡◌, map};
ghost use Rattle.sheet_text.specs.Codes as Codes;

pub(crate) const ARRANGEMENTS: [&str; 8] = [
    "",
    "single-core, trefoil, bonded at both ends",
    "single-core, flat, transposed, bonded at both ends",
    "single-core, trefoil, bonded at one point",
    "single-core, flat, bonded at one point, centre cable",
    "three-core SL type, steel wire armour",
    "three-core, common sheath",
    "single-core, direct current",
];

pub(crate) const CONDUCTORS: [&str; 9] = [
    "",
    "copper, round, dried",
    "copper, round, not dried",
    "copper, segmental",
    "aluminium, round, dried",
    "aluminium, round, not dried",
    "aluminium, 4 segments",
    "aluminium, 5 segments",
    "aluminium, 6 segments",
];

pub(crate) const METALS: [&str; 7] = [
    "none",
    "lead",
    "aluminium",
    "copper",
    "bronze",
    "stainless steel",
    "steel",
];

// What a code stands for, or nothing where it is none of them.
pub(crate) fn words_of(words: &[&'static str], code: u32) -> &'static str
    ensures { result.now ≡ Codes.words_of (map (λ t. t.now) words.now) code }
{
    // as: std has no From between words and usize
    match words.get(code as usize) {
        Some(word) => word,
        None => "",
    }
}
