// Lines of a stream in two buffers that the caller lends, of any length: a chunk as it was read, and
// the line that is gathered from chunks. It is for a caller that wants other sizes or fewer reads
// than `Lines` has, or that keeps a place in the chunk, which is a value of its own, to go back to.
#[cfg(test)]
mod tests;

ghost use Rattle.std.specs.Prelude.{◌≡◌, length, take, IfSome};
ghost use Rattle.input.specs.Lent.{Ready, Given, said_here};
ghost use Rattle.line_in_place.specs.Standing.{standing};

use line_in_place::read_at;
use std::io;
use text::gather::{ROOM, keep, line_feed};
use text::line::{Said, read_line};

// Room for a line, in the buffer that a caller lends for it.
pub const LINE: usize = ROOM;

// Where reading stands: the chunk's bytes from `at` to `end` are still to come, and so many reads
// are left, a budget that makes every loop end.
#[derive(Clone, Copy)]
pub struct Input {
    pub at: usize,
    pub end: usize,
    pub reads: u64,
}

// The line's length, if there was one: a line feed ends it, or the end of the input after at least
// one byte.
#[derive(Clone, Copy)]
pub struct NextLine {
    pub found: bool,
    pub len: usize,
    pub next: Input,
}

// What the line says, if there was one.
#[derive(Clone, Copy)]
pub struct NextSaid {
    pub said: Option<Said>,
    pub next: Input,
}

// Nothing is read yet.
pub fn start() -> Input
    ensures ready { Ready result 0 }
    ensures reads { result.reads ≡ 18446744073709551615 }
{
    Input {
        at: 0,
        end: 0,
        reads: u64::MAX,
    }
}

// The next line, without its line feed, at the front of `line`; of a longer one as much as fits.
// Where reading fails the input ends.
pub fn next_line<S: io::Read>(
    source: &mut S,
    chunk: &mut [u8],
    line: &mut [u8],
    from: Input,
) -> NextLine
    requires { Ready from (length chunk.old) }
    ensures { Given result (length chunk.new) (length line.new) }
{
    let Input {
        mut at,
        mut end,
        mut reads,
    } = from;
    let mut len = 0;
    while 0 < reads {
        let part = &chunk[..end];
        let stop = line_feed(part, at);
        len = keep(line, len, part, at, stop);
        if stop < end {
            let next = Input {
                at: stop + 1,
                end,
                reads,
            };
            return NextLine {
                found: true,
                len,
                next,
            };
        }
        end = source.read(chunk).unwrap_or(0);
        if end == 0 {
            break;
        }
        at = 0;
        reads -= 1;
    }
    NextLine {
        found: 0 < len,
        len,
        next: Input {
            reads: 0,
            ..start()
        },
    }
}

// What the next line says. A line that the chunk has to its line feed is read there, and any other
// is gathered in `line` first.
pub fn next_said<S: io::Read>(
    source: &mut S,
    chunk: &mut [u8],
    line: &mut [u8],
    from: Input,
) -> NextSaid
    requires { Ready from (length chunk.old) }
    ensures ready { Ready result.next (length chunk.new) }
    ensures value { IfSome (standing (take from.end chunk.old) from.at) (λ here.
        result ≡ said_here here from) }
{
    if let Some(here) = read_at(&chunk[..from.end], from.at) {
        return NextSaid {
            said: Some(here.said),
            next: Input {
                at: here.to + 1,
                end: from.end,
                reads: from.reads,
            },
        };
    }
    let NextLine { found, len, next } = next_line(source, chunk, line, from);
    NextSaid {
        said: if found {
            Some(read_line(&line[..len]))
        } else {
            None
        },
        next,
    }
}
