// The bits of an entry's pins.
ghost use Rattle.std.specs.Prelude.{◌≡◌, ◌<◌};
ghost use Rattle.rules.specs.Bits.{bits, on};

// CS_n of the one part, or of the first; clock enable; CS_n of the second part.
pub const FIRST_SELECT: u32 = 20;

pub const CLOCK_ENABLE: u32 = 21;

pub const SECOND_SELECT: u32 = 22;

#[tactic(auto, unfolding(rules::specs::Bits::on, rules::specs::Bits::bits))]
pub fn is_on(pins: u32, bit: u32) -> bool
    requires { bit < 32 }
    ensures { result ≡ on pins bit }
{
    number(pins, bit, 1) == 1
}

// The number in so many bits from a bit on.
#[tactic(auto, unfolding(rules::specs::Bits::bits))]
pub fn number(pins: u32, bit: u32, width: u32) -> u32
    requires range { bit < 32 }
    requires wide { width < 32 }
    ensures { result ≡ bits pins bit width }
{
    (pins >> bit) % (1 << width)
}
