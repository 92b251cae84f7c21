// A stream cut into lines: the place of a line feed in a chunk, and the part of a line that is
// kept.
ghost use Rattle.std.specs.Prelude.{◌≡◌, ◌++◌, ◌-◌, length, take};
ghost use Rattle.text.specs.Gather.{is_in_line, kept};
ghost use Rattle.text.specs.Words.{run_end};
ghost use Rattle.splice.specs.Put.{Put};

use crate::line::LONGEST;
use arrayvec::ArrayVec;
use memchr::memchr;

// Room for a line: a byte more than the longest has, so that a line that is too long is seen to be
// so.
pub const ROOM: usize = LONGEST + 1;

// The place of the first line feed from `from` on, or the end: a place, as in words.rt.
pub fn line_feed(chunk: &[u8], from: usize) -> usize
    ensures { result ≡ run_end is_in_line chunk.now from }
{
    match chunk.get(from..) {
        Some(rest) => from + memchr(b'\n', rest).unwrap_or(rest.len()),
        None => from,
    }
}

// Appends the chunk's bytes from `from` to `to` to the `len` bytes that the line has, as many as
// there is room for, and answers the new length. The length stands beside the buffer here, since
// what is gathered so is a book's note, at the front of the book's own bytes (memory is fixed). The
// part is named by its places, which may lie past the chunk's end: so the function was promised.
pub fn keep(line: &mut [u8], len: usize, chunk: &[u8], from: usize, to: usize) -> usize
    ensures { Put line.old len (kept (length line.old - len) from to chunk.now)
        line.new result }
{
    let size = to.min(chunk.len()).saturating_sub(from);
    let count = size.min(line.len().saturating_sub(len));
    if 0 < count {
        line[len..len + count].copy_from_slice(&chunk[from..from + count]);
    }
    len + count
}

// Appends bytes to a line, as many as it has room for.
pub fn gather<const N: usize>(line: &mut ArrayVec<u8, N>, bytes: &[u8])
    ensures { line.new.items ≡ take N (line.old.items ++ bytes.now) }
{
    let count = bytes.len().min(line.remaining_capacity());
    let _ = line.try_extend_from_slice(&bytes[..count]);
}
