// Reads cases from standard input, one to a line as `rate` does, and writes a book of them to
// standard output. What is done to the book's bytes is `keep_book`; here are the buffers, the
// reading and the writing.
#![tactic(auto)]

ghost use Rattle.std.specs.Prelude.{◌≤◌, length, IfSome};

use arrayvec::ArrayString;
use book::start::start;
use input::source::{Reader, Source};
use input::{Lines, SaidLines};
use keep_book::{NotKept, add_word, keep_said};
use output::send;
use rate_text::put_about;
use std::env::{Env, FillError};
use std::io::Write;

// Argument i, if there is one, at the front of `word`, and its length; of one longer than `word` as
// much as fits.
fn argument<E: Env>(env: &E, i: usize, word: &mut [u8]) -> Option<usize>
    ensures { IfSome result (λ len. len ≤ length word.new) }
{
    match env.arg(i, word) {
        Ok(len) => Some(len),
        Err(FillError::TooLong) => Some(word.len()),
        Err(FillError::NotPresent) => None,
    }
}

// The arguments joined by blanks at the front of the book, as its note, and their length.
fn put_note<E: Env>(env: &E, book: &mut [u8]) -> usize {
    let mut word = [0u8; 65536];
    let mut len: usize = 0;
    // By index: std's args allocates.
    for i in 1..usize::MAX {
        let Some(n) = argument(env, i, &mut word) else {
            break;
        };
        len = add_word(book, len, i == 1, &word[..n]);
    }
    len
}

// Says a text about a line.
fn say<W: Write>(to: &mut W, number: u64, text: &str)
    requires { length text.now ≤ 64 }
{
    let mut out = ArrayString::<128>::new();
    put_about(&mut out, number, text);
    send(to, out.as_str().as_bytes(), out.len());
}

// Each line's case appended to the book, and the book's used length, if every line could be read
// and kept. Every unreadable line is said, and the first that the book has no room for.
fn keep_lines<S: Source + Drop, W: Write>(
    lines: SaidLines<S>,
    errors: &mut W,
    book: &mut [u8],
    begun: usize,
) -> Option<usize> {
    let mut used = begun;
    // A flag beside the length: after an unreadable line reading goes on with the book as it is.
    let mut whole = true;
    for (number, said) in (1..=u64::MAX).zip(lines) {
        match keep_said(book, used, said) {
            Ok(after) => used = after,
            Err(NotKept::Unreadable) => {
                say(errors, number, ": unreadable\n");
                whole = false;
            }
            Err(NotKept::Refused(_)) => {
                say(errors, number, ": the book would pass 65536 bytes\n");
                return None;
            }
        }
    }
    whole.then_some(used)
}

// Says a text about the book.
fn say_of_book<W: Write>(to: &mut W, text: &[u8]) {
    send(to, text, text.len());
}

// Where a line cannot be read, or the book would pass 65536 bytes, standard error says so and no book
// is written.
fn main(rt: HostRuntime) {
    let mut errors = rt.stderr();
    let mut book = [0u8; 65536];
    let note = put_note(&rt, &mut book);
    let Ok(begun) = start(&mut book, note) else {
        say_of_book(
            &mut errors,
            b"the note leaves no room in a book of 65536 bytes\n",
        );
        return;
    };
    let lines = Lines::new(Reader(rt.stdin())).said();
    let Some(used) = keep_lines(lines, &mut errors, &mut book, begun) else {
        return;
    };
    if !send(&mut rt.stdout(), &book, used) {
        say_of_book(&mut errors, b"the book was not written whole\n");
    }
}
