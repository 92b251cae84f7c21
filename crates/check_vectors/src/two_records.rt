// An edge of the format (docs/BOOK.md): the trailer of a book of two records has the distance 256, and
// that of an older book of two 224.
use book::accept::accept;
use book::append::append;
use book::start::start;
use fields::WIDTH;

// Two records of 128 bytes and a trailer of 16, with no note.
const LENGTH: usize = 272;

// The third word of the trailer.
const DISTANCE: usize = LENGTH - 8;

// The distance back to the first record.
pub(crate) fn distance_of_two() -> Option<u32> {
    let mut book = [0u8; LENGTH];
    let mut used = start(&mut book, 0).ok()?;
    for _ in 0..2 {
        used = append(&mut book, used, [0; WIDTH]).ok()?;
    }
    let word = book[DISTANCE..].first_chunk()?;
    (used == LENGTH).then_some(u32::from_be_bytes(*word))
}

// Two records of 112 bytes and a trailer, with no note.
const OLDER_LENGTH: usize = 240;

// How many records accept counts in an older book of two cases of zeros, whose answer is 1, when its
// trailer has this distance.
pub(crate) fn count_of_older(distance: u8) -> Option<usize> {
    let mut book = [0u8; OLDER_LENGTH];
    book[107] = 1;
    book[219] = 1;
    book[224..].copy_from_slice(&[82, 66, 75, 49, 0, 0, 0, 2, 0, 0, 0, distance, 0, 0, 0, 112]);
    Some(accept(&book, OLDER_LENGTH).ok()?.count)
}
