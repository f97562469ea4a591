// Bytes put at the start of a slice.
ghost use Rattle.std.specs.Prelude.{◌≤◌, length};
ghost use Rattle.lines.specs.Written.{Lined};

// The answer is how many. By value and of a known size, for speed: it is then a store or two, where a slice of any size is copied by a call, and one of a known size
// after a test of whether the two overlap.
pub fn put_text<const N: usize>(out: &mut [u8], text: [u8; N]) -> usize
    requires { length text ≤ length out.old }
    ensures { Lined text.entry out.old out.new result }
{
    out[..N].copy_from_slice(&text);
    N
}
