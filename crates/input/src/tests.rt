// A source whose bytes are known, so that there is one of which the steps say what they give, and its
// lines, of which some lie in several chunks.
ghost use Rattle.std.specs.Prelude.{Some, ◌≡◌, ◌<◌, length};
ghost use Rattle.input.specs.Lines.{lines};

use crate::Lines;
use crate::source::Source;

// Bytes that are given at most so many at a time.
#[derive(Drop)]
struct Portions<'a> {
    bytes: &'a [u8],
    most: usize,
    ghost some: { 0 < most },
}

impl Source for Portions<'_> {
    ghost remaining = { λ s. Some s.bytes.now };

    fn fill(&mut self, chunk: &mut [u8]) -> usize {
        let count = self.most.min(self.bytes.len()).min(chunk.len());
        let (given, rest) = self.bytes.split_at(count);
        chunk[..count].copy_from_slice(given);
        self.bytes = rest;
        count
    }
}

// How many lines bytes have: a loop over the steps gets each once, and all.
fn count(bytes: &[u8]) -> u64
    requires { length bytes.now < 18446744073709551615 }
    ensures { result ≡ length (lines bytes.now) }
{
    let mut count: u64 = 0;
    for _line in Lines::new(Portions { bytes, most: 3 }) {
        count += 1;
    }
    count
}

#[test]
fn lines_of_several_chunks(rt: HostRuntime) {
    let bytes = b"ab\ncdefgh\n\nz";
    let mut lines = Lines::new(Portions { bytes, most: 3 });
    for want in ["ab", "cdefgh", "", "z"] {
        let Some(line) = lines.next_line() else {
            assert!(rt; false, "a line is lost: {want}");
            return;
        };
        assert!(rt; line.as_slice() == want.as_bytes(), "a line is not {want}");
    }
    assert!(rt; lines.next_line().is_none(), "a line too many");
    assert_eq!(rt; count(bytes), 4, "lines are counted");
}
