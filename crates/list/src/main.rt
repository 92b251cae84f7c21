// Reads a book of at most 65536 bytes from standard input and prints its listing. What is printed is
// `list_text::list_into`; here are the buffers, the reading and the writing.
#![tactic(auto)]

ghost use Rattle.std.specs.Prelude.{◌≤◌, length};

use list_text::{Listing, MOST, list_into};
use output::send;
use std::io::Read;

// The input's next bytes at the front of `buffer`, and how many: as many as it has room for, or all
// to the end of the input, or to where reading fails. std's read_exact does not say how many it read
// before the end, and its read_to_end allocates.
fn read_full<R: Read>(source: &mut R, buffer: &mut [u8]) -> usize
    ensures { result ≤ length buffer.new }
{
    let mut done = 0;
    while done < buffer.len() {
        match source.read(&mut buffer[done..]) {
            Ok(0) | Err(_) => break,
            Ok(count) => done += count,
        }
    }
    done
}

// A byte more than a book may have shows that a book is over-long. A listing that cannot be written
// is lost, since there is nowhere to say so.
fn main(rt: HostRuntime) {
    let mut buffer = [0; MOST + 1];
    let mut out = Listing::new();
    let used = read_full(&mut rt.stdin(), &mut buffer);
    list_into(&mut out, buffer.first_chunk().unwrap(), used);
    send(&mut rt.stdout(), out.as_str().as_bytes(), out.len());
}
