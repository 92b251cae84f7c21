// Reads cases from standard input, one to a line, and prints for each its answer, rating and sheet.
// What is printed for a line is `rate_text::print_said`; here are the buffer, the loop over the
// lines and the writing. Text that cannot be written is lost, since there is nowhere to say so.
#![tactic(auto)]

use arrayvec::ArrayString;
use input::Lines;
use input::source::Reader;
use output::send;
use rate_text::{ROOM, print_said};

// The most bytes that are written at once.
const BUFFER: usize = 65536;

fn main(rt: HostRuntime) {
    let mut to = rt.stdout();
    let mut out = ArrayString::<BUFFER>::new();
    for (number, said) in (1..=u64::MAX).zip(Lines::new(Reader(rt.stdin())).said()) {
        print_said(&mut out, number, said);
        if out.remaining_capacity() < ROOM {
            send(&mut to, out.as_str().as_bytes(), out.len());
            out.clear();
        }
    }
    send(&mut to, out.as_str().as_bytes(), out.len());
}
