// Numbers in decimal, put at the start of a slice: by hand, and not by `write!`, since the clauses (`Lined`) say each byte and how many there are.
ghost use Rattle.std.specs.Prelude.{◌≡◌, ◌≤◌, ◌∷◌, length};
ghost use Rattle.rules.specs.Lines.{decimal};
ghost use Rattle.lines.specs.Written.{Lined};

use crate::text::put_text;

// How many digits a number has. The arms are for speed: most numbers are short, and the logarithm takes longer than the tests.
fn digits(x: u64) -> usize
    ensures { result ≡ length (decimal x) }
{
    match x {
        0..=9 => 1,
        10..=99 => 2,
        100..=999 => 3,
        1000..=9999 => 4,
        _ => x.ilog10() as usize + 1,
    }
}

// From the last digit to the first, which is what is left.
pub fn put_number(out: &mut [u8], x: u64) -> usize
    requires { length (decimal x) ≤ length out.old }
    ensures { Lined (decimal x) out.old out.new result }
{
    let size = digits(x);
    let mut rest = x;
    for i in (1..size).rev() {
        out[i] = b'0' + (rest % 10) as u8;
        rest /= 10;
    }
    out[0] = b'0' + rest as u8;
    size
}

pub fn put_next(out: &mut [u8], x: u64) -> usize
    requires { length (32 ∷ decimal x) ≤ length out.old }
    ensures { Lined (32 ∷ decimal x) out.old out.new result }
{
    let blank = put_text(out, *b" ");
    blank + put_number(&mut out[blank..], x)
}
