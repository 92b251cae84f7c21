// The proved functions under C's calling convention, for programs in C and Rust: numbers and slices
// only, and no logic. C has no Result: it gets 0 or the refusal's number, and zeros beside a refusal.
// The header is include/sheafdawn.h, the Rust wrapper rust/sheafdawn.rs.
#![tactic(auto)]

ghost use Rattle.std.specs.Prelude.{[], ◌∷◌, ◌≡◌, length};
ghost use Rattle.book.specs.Answers.{written_of};
ghost use Rattle.book_bytes.specs.Refusal.{named_by};
ghost use Rattle.sheafdawn.specs.Calls.{call, book_call, rate_call, start_call, append_call, read_call, accept_call};

use book::accept::accept;
use book::append::append;
use book::read::read;
use book::start::start;
use book_bytes::refusal::Refusal;
use fields::WIDTH;
use rating::rate::rate;

// Refuses a slice of a wrong length, a case of 26 and a record of 28 among them, and then nothing is
// written.
pub const WRONG_LENGTH: u32 = 4294967295;

// Rates a case of 30 words. `out` gets 14 numbers: the rating in mA and the sheet. Answers 0 or the
// refusal's number.
#[unsafe(no_mangle)]
pub extern "C" fn sheafdawn_rate(case: &[u32], out: &mut [u64]) -> u32
    ensures { call result out.new ≡ rate_call case.now out.old }
{
    let Some(case) = case.as_array() else {
        return WRONG_LENGTH;
    };
    if out.len() != 14 {
        return WRONG_LENGTH;
    }
    match rate(*case) {
        Ok(rated) => {
            out[0] = u64::from(rated.rating);
            out[1..].copy_from_slice(&rated.sheet);
            0
        }
        Err(refusal) => {
            out.fill(0); // the rating too
            u32::from(refusal)
        }
    }
}

// What start and append answer: 0 or the refusal's number, and `out` gets the used length.
fn put_used(answered: Result<usize, Refusal>, out: &mut [usize]) -> u32
    requires { length out.old ≡ 1 }
    ensures number { result ≡ (written_of answered []).number }
    ensures used { out.new ≡ (written_of answered []).used ∷ [] }
{
    match answered {
        Ok(used) => {
            out[0] = used;
            0
        }
        Err(refusal) => {
            out[0] = 0;
            u32::from(refusal)
        }
    }
}

// Starts a book after a note of `note` bytes. `out` gets one number, the used length. Answers 0 or the
// refusal's number.
#[unsafe(no_mangle)]
pub extern "C" fn sheafdawn_start(buffer: &mut [u8], note: usize, out: &mut [usize]) -> u32
    ensures { book_call result buffer.new out.new
        ≡ start_call buffer.old note out.old }
{
    if out.len() != 1 {
        return WRONG_LENGTH;
    }
    put_used(start(buffer, note), out)
}

// Appends a case of 30 words to a book of RBK2; 21 refuses one of RBK1. `out` gets one number, the new
// used length. Answers 0 or the refusal's number.
#[unsafe(no_mangle)]
pub extern "C" fn sheafdawn_append(
    buffer: &mut [u8],
    used: usize,
    case: &[u32],
    out: &mut [usize],
) -> u32
    ensures { book_call result buffer.new out.new
        ≡ append_call buffer.old used case.now out.old }
{
    let Some(x) = case.as_array() else {
        return WRONG_LENGTH;
    };
    if out.len() != 1 {
        return WRONG_LENGTH;
    }
    put_used(append(buffer, used, *x), out)
}

// Reads a record by its index from 0. `out` gets 32 words: the inputs, the answer and the rating.
// Answers 0 or the refusal's number.
#[unsafe(no_mangle)]
pub extern "C" fn sheafdawn_read(buffer: &[u8], used: usize, index: usize, out: &mut [u32]) -> u32
    ensures { call result out.new ≡ read_call buffer.now used index out.old }
{
    if out.len() != WIDTH + 2 {
        return WRONG_LENGTH;
    }
    match read(buffer, used, index) {
        Ok(record) => {
            // (not copy_from_slice, which would go over the stack)
            let case = record.case;
            *out.first_chunk_mut().unwrap() = case;
            out[WIDTH] = record.answer;
            out[WIDTH + 1] = record.rating;
            0
        }
        Err(refusal) => {
            out.fill(0);
            u32::from(refusal)
        }
    }
}

// The record that a refusal names, from 1, or 0.
fn named_by(refusal: Refusal) -> usize
    ensures { result ≡ named_by refusal }
{
    match refusal {
        Refusal::Disagrees(record) => record,
        _ => 0,
    }
}

// Accepts a book. `out` gets three numbers: the count, the note's length, and for 23 the first record
// that disagrees, from 1. Answers 0 or the refusal's number.
#[unsafe(no_mangle)]
pub extern "C" fn sheafdawn_accept(buffer: &[u8], used: usize, out: &mut [usize]) -> u32
    ensures { call result out.new ≡ accept_call buffer.now used out.old }
{
    if out.len() != 3 {
        return WRONG_LENGTH;
    }
    match accept(buffer, used) {
        Ok(accepted) => {
            out.copy_from_slice(&[accepted.count, accepted.first, 0]);
            0
        }
        Err(refusal) => {
            out.copy_from_slice(&[0, 0, named_by(refusal)]);
            u32::from(refusal)
        }
    }
}
