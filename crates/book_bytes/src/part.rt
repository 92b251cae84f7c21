// A part of a buffer that is written over: a field, the mark, a record or a trailer.
ghost use Rattle.std.specs.Prelude.{◌≡◌, ◌+◌, ◌≤◌, length};
ghost use Rattle.splice.specs.Splice.{splice};

pub fn put(buffer: &mut [u8], at: usize, part: &[u8])
    requires { at + length part.now ≤ length buffer.old }
    ensures { buffer.new ≡ splice buffer.old at part.now }
{
    buffer[at..at + part.len()].copy_from_slice(part);
}
