// Lines in buffers that are shorter than those of `Lines`, from a place that was kept, and with few
// reads.
use super::{Input, next_line, next_said, start};
use text::line::Said;

#[test]
fn lines_of_a_short_chunk(rt: HostRuntime) {
    let mut source: &[u8] = b"ab\ncdefgh\n\nz";
    let mut chunk = [0u8; 6];
    let mut line = [0u8; 4];
    let first = next_line(&mut source, &mut chunk, &mut line, start());
    assert!(rt;
        first.found && &line[..first.len] == b"ab".as_slice(),
        "the first line"
    );
    let kept = Input {
        at: 0,
        ..first.next
    };
    let again = next_line(&mut source, &mut chunk, &mut line, kept);
    assert!(rt;
        again.found && &line[..again.len] == b"ab".as_slice(),
        "the first line again"
    );
    let second = next_line(&mut source, &mut chunk, &mut line, again.next);
    assert!(rt;
        second.found && &line[..second.len] == b"cdef".as_slice(),
        "as much as fits"
    );
    let third = next_said(&mut source, &mut chunk, &mut line, second.next);
    assert_eq!(rt; third.said, Some(Said::PassedOver), "an empty line");
    let last = next_said(&mut source, &mut chunk, &mut line, third.next);
    assert_eq!(rt;
        last.said,
        Some(Said::Unreadable),
        "a line with no line feed"
    );
    let none = next_said(&mut source, &mut chunk, &mut line, last.next);
    assert_eq!(rt; none.said, None, "a line too many");
}

#[test]
fn few_reads(rt: HostRuntime) {
    let mut source: &[u8] = b"ab\ncdefgh\n";
    let mut chunk = [0u8; 6];
    let mut line = [0u8; 4];
    let from = Input {
        reads: 2,
        ..start()
    };
    let first = next_line(&mut source, &mut chunk, &mut line, from);
    assert!(rt;
        first.found && &line[..first.len] == b"ab".as_slice(),
        "the first line"
    );
    let rest = next_line(&mut source, &mut chunk, &mut line, first.next);
    assert!(rt;
        rest.found && &line[..rest.len] == b"cde".as_slice(),
        "what was read of the second"
    );
    assert!(rt;
        !next_line(&mut source, &mut chunk, &mut line, rest.next).found,
        "no read is left"
    );
}
