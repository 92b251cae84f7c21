// Prints the listing of a small book of RBK2, without a note and with one case of zeros, of a book for
// each of the refusals 20, 21, 22 and 23: a used length past the buffer, and the small book with one
// byte changed; and of books of four such cases in which up to three records disagree, at the first,
// the last and adjacent places. Then those of a small book of RBK1, with a rated case.
#![tactic(auto)]

ghost use Rattle.std.specs.Prelude.{◌<◌, ◌≤◌};

use book::append::append;
use book::start::start;
use book_bytes::layout::{RECORD_LENGTH, TRAILER_LENGTH};
use book_bytes::part::put;
use book_bytes::refusal::Refusal;
use fields::WIDTH;
use list_text::{Listing, MOST, list_into};
use output::send;
use std::io::Write;

type Book = [u8; MOST];

// The used length of the small book.
const USED: usize = RECORD_LENGTH + TRAILER_LENGTH;

// The words of the small book of RBK1: the case, its answer and rating, and the trailer. No function
// writes that mark.
const OLDER: [u32; 32] = [
    5, 1, 5000, 8500, 1500, 124000, 1450, 4200, 1750, 3600, 19000, 350, 1000, 4000, 1, 1000000,
    6000, 6, 250000, 5500, 2500, 11000, 350000, 40000, 60000, 450000, 0, 457106, 0x52424b31, 1,
    112, 112,
];

// Its used length.
const OLDER_USED: usize = 4 * 32;

fn older_book() -> Book {
    let mut book = [0; MOST];
    for (i, word) in OLDER.iter().enumerate() {
        put(&mut book, 4 * i, &word.to_be_bytes());
    }
    book
}

// A book without a note, at the front of the buffer.
fn write_book(book: &mut Book, cases: usize) -> Result<(), Refusal> {
    let mut used = start(book, 0)?;
    for _ in 0..cases {
        used = append(book, used, [0; WIDTH])?;
    }
    Ok(())
}

fn change(book: &mut Book, at: usize, byte: u8) {
    if let Some(place) = book.get_mut(at) {
        *place = byte;
    }
}

fn changed(mut book: Book, at: usize, byte: u8) -> Book {
    change(&mut book, at, byte);
    book
}

// A listing that cannot be written is missing from what is printed, which is compared.
fn show<W: Write>(to: &mut W, out: &mut Listing, book: &Book, used: usize) {
    list_into(out, book, used);
    send(to, out.as_str().as_bytes(), out.len());
}

// Four cases, and another rating in three of their records, counted from 1; two may be the same.
fn show_disagreeing<W: Write>(
    to: &mut W,
    out: &mut Listing,
    first: usize,
    second: usize,
    third: usize,
) -> Result<(), Refusal>
    requires { (0 < first) × (first ≤ 4) × (0 < second) × (second ≤ 4) × (0 < third) × (third ≤ 4) }
{
    let mut book = [0; MOST];
    write_book(&mut book, 4)?;
    change(&mut book, RECORD_LENGTH * first - 1, 1);
    change(&mut book, RECORD_LENGTH * second - 1, 1);
    change(&mut book, RECORD_LENGTH * third - 1, 1);
    show(to, out, &book, 4 * RECORD_LENGTH + TRAILER_LENGTH);
    Ok(())
}

// As for the small book of RBK2, and with that mark on the records of RBK1.
fn show_older<W: Write>(to: &mut W, out: &mut Listing) {
    let sound = older_book();
    let trailer = OLDER_USED - TRAILER_LENGTH;
    show(to, out, &sound, OLDER_USED);
    show(to, out, &sound, MOST + 1);
    show(to, out, &changed(sound, trailer, 0), OLDER_USED);
    show(to, out, &changed(sound, OLDER_USED - 1, 128), OLDER_USED);
    show(to, out, &changed(sound, trailer - 1, 1), OLDER_USED);
    show(to, out, &changed(sound, trailer + 3, b'2'), OLDER_USED);
}

fn show_all<W: Write>(to: &mut W, out: &mut Listing) -> Result<(), Refusal> {
    let mut sound = [0; MOST];
    write_book(&mut sound, 1)?;
    show(to, out, &sound, USED);
    show(to, out, &sound, MOST + 1);
    show(to, out, &changed(sound, RECORD_LENGTH, 0), USED);
    show(to, out, &changed(sound, USED - 1, 113), USED);
    show(to, out, &changed(sound, RECORD_LENGTH - 1, 1), USED);
    show_disagreeing(to, out, 4, 4, 4)?;
    show_disagreeing(to, out, 1, 4, 4)?;
    show_disagreeing(to, out, 1, 2, 2)?;
    show_disagreeing(to, out, 2, 3, 3)?;
    show_disagreeing(to, out, 3, 4, 4)?;
    show_disagreeing(to, out, 4, 2, 1)?;
    show_older(to, out);
    Ok(())
}

// These books fit. Were one refused, the listings from there on would be missing from what is printed.
fn main(rt: HostRuntime) {
    let mut out = Listing::new();
    let _ = show_all(&mut rt.stdout(), &mut out);
}
