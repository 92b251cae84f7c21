// A stream, as standard input, line by line: the lines themselves, or what each says. One chunk of
// the stream is held, and a line that a chunk has not whole is gathered from several. Memory does
// not grow with the input, and a budget of reads makes every loop over the lines end.
#![tactic(auto)]

pub mod lent;
pub mod source;
mod steps;
#[cfg(test)]
mod tests;

ghost use Rattle.std.specs.Prelude.{◌≤◌};

use arrayvec::ArrayVec;
use text::gather::ROOM;

// A line without its line feed; of one that is longer as much as fits.
pub type Line = ArrayVec<u8, ROOM>;

// The most bytes that are read at once.
const CHUNK: usize = 65536;

// The lines of a stream: the chunk's bytes from `at` to `end` are still to come, and so many reads
// are left. A line feed ends a line, or the end of the input after at least one byte. It has a chunk
// of its own since std's BufReader allocates.
#[derive(Drop)]
pub struct Lines<S> {
    source: S,
    chunk: [u8; CHUNK],
    at: usize,
    end: usize,
    reads: u64,
    ghost within: { at ≤ end },
    ghost inside: { end ≤ 65536 },
}

// What each line of a stream says.
#[derive(Drop)]
pub struct SaidLines<S>(Lines<S>);
