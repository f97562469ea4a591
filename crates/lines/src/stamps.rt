// The digits of a stamp: those before the last four, which one entry most often has from the entry before it, and the last four.
ghost use Rattle.std.specs.Prelude.{◌≡◌, ◌<◌, ◌≤◌};
ghost use Rattle.lines.specs.Stamps.{last_four, LeadGood, PairsGood};

use crate::numbers::put_number;

// A multiple of ten thousand, and its digits but the last four: the first `size` of the eight bytes, which are put all eight. As a slice of its own length, and so
// the tail, a line took 130 instructions in place of 72, since a copy of a length that is not known is a call.
#[derive(Clone, Copy)]
pub struct Lead {
    pub base: u32,
    pub text: [u8; 8],
    pub size: usize,
    ghost good: { LeadGood base text size },
}

impl Lead {
    pub fn of(number: u32) -> Lead
        requires { (1 ≤ number) × (number < 429496) }
    {
        let mut text = *b"        ";
        let size = put_number(&mut text, u64::from(number));
        Lead {
            base: 10000 * number,
            text,
            size,
        }
    }

    // That of this stamp, where it has one and its ten thousand numbers are all below 2^32. Most often it is the same.
    pub fn renew(&mut self, stamp: u32) {
        let number = stamp / 10000;
        if 10000 * number != self.base && 1 <= number && number < 429496 {
            *self = Lead::of(number);
        }
    }
}

// The digits of each number below 100.
#[derive(Clone, Copy)]
pub struct Pairs {
    digits: [u8; 200],
    ghost good: { PairsGood digits },
}

pub const PAIRS: Pairs = Pairs {
    digits: *b"00010203040506070809101112131415161718192021222324252627282930313233343536373839404142434445464748495051525354555657585960616263646566676869707172737475767778798081828384858687888990919293949596979899",
};

impl Pairs {
    #[tactic(auto, using(crate::proofs::Leading::four_digits))]
    pub fn last_four(&self, rest: u32) -> [u8; 4]
        requires { rest < 10000 }
        ensures { result ≡ last_four rest }
    {
        let high = (rest / 100 * 2) as usize;
        let low = (rest % 100 * 2) as usize;
        [
            self.digits[high],
            self.digits[high + 1],
            self.digits[low],
            self.digits[low + 1],
        ]
    }
}
