// What a case must get: the line that `rate` prints, or a range of its rating.
use text::number::read_number;
use text::words::is_blank;

// The number that a word of a range says. What is no number is 0, so that the range holds little. 0
// and no Option, since another answer would change what is counted.
fn number_of(word: Option<&[u8]>) -> u32 {
    word.and_then(read_number).unwrap_or(0)
}

// Whether a rating lies within `LOW HIGH`.
pub(crate) fn is_within(range: &[u8], rating: u32) -> bool {
    let mut words = range
        .split(|b| is_blank(*b))
        .filter(|word| !word.is_empty());
    let low = number_of(words.next());
    let high = number_of(words.next());
    (low..=high).contains(&rating)
}

// Whether a printed text is a line and its line feed.
pub(crate) fn is_same(printed: &str, line: &[u8]) -> bool {
    printed
        .as_bytes()
        .strip_suffix(b"\n")
        .is_some_and(|text| text == line)
}
