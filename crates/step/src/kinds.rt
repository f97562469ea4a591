// The kinds of command that a quick run takes, straight from the pins.
ghost use Rattle.std.specs.Prelude.{◌≡◌};
ghost use Rattle.rules.specs.Pins.{decode};
ghost use Rattle.pins.specs.Places.{bank_on, ap_on};
ghost use Rattle.step.specs.Ready.{hot_of};

// The kinds that a quick run takes; any other, and pins that are no command, are cold: a case and no `None`, since `hot_of`, by which `ready_taken` is said, sorts every pattern.
#[derive(Clone, Copy)]
pub enum Hot {
    Nop,
    Act,
    Rd,
    Wr,
    Pre,
    Cold,
}

pub fn kind_on(pins: u32) -> Hot
    ensures { result ≡ hot_of (decode pins) }
{
    if pins / 2097152 != 1 {
        return Hot::Cold;
    }
    if pins / 1048576 % 2 == 1 {
        return Hot::Nop;
    }
    // The numbers are those of the table of kinds, which `kind_of` promises.
    match pins::kind_of(pins) {
        0 => Hot::Nop,
        5 => Hot::Act,
        6 => Hot::Rd,
        7 => Hot::Wr,
        8 => Hot::Pre,
        _ => Hot::Cold,
    }
}

// As an index; a command's bank is a byte of `pins`.
pub fn bank_on(pins: u32) -> usize
    ensures { result ≡ bank_on pins }
{
    (pins / 128 % 8) as usize
}

pub fn ap_on(pins: u32) -> bool
    ensures { result ≡ ap_on pins }
{
    pins / 1024 % 2 == 1
}
