// Reads cases from standard input as the program rate does, and prints for each a work sheet for a person. What is printed for a line is
// `sheet_lines::line::print_line`; here are the buffer, the loop over the lines and the writing. Text that cannot be written is lost,
// since there is nowhere to say so.
#![tactic(auto)]

use arrayvec::ArrayString;
use input::Lines;
use input::source::Reader;
use output::send;
use sheet_lines::heading::Heading;
use sheet_lines::line::{ROOM, print_line};

// The most bytes that are written at once.
const BUFFER: usize = 65536;

fn main(rt: HostRuntime) {
    let mut to = rt.stdout();
    let mut out = ArrayString::<BUFFER>::new();
    let mut heading = Heading::new();
    for (number, line) in (1..=u64::MAX).zip(Lines::new(Reader(rt.stdin()))) {
        print_line(&mut out, &mut heading, number, &line);
        if out.remaining_capacity() < ROOM {
            send(&mut to, out.as_str().as_bytes(), out.len());
            out.clear();
        }
    }
    send(&mut to, out.as_str().as_bytes(), out.len());
}
