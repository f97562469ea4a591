// What a value of MR4 says of the temperature by OP2-0.
ghost use Rattle.std.specs.Prelude.{◌≡◌, ◌≤◌};
ghost use Rattle.rules.specs.Heat as paper;

#[tactic(auto, unfolding(rules::specs::Heat::heat, rules::specs::Bits::bits))]
fn heat(mr4: u8) -> u8
    ensures { result ≡ paper.heat mr4 }
{
    mr4 % 8
}

#[tactic(auto, unfolding(rules::specs::Heat::mr4_good))]
pub fn mr4_good(mr4: u8) -> bool
    ensures { result ≡ paper.mr4_good mr4 }
{
    matches!(heat(mr4), 0b001..=0b110)
}

// The code that makes delays longer.
#[tactic(auto, unfolding(rules::specs::Heat::is_hot))]
pub fn is_hot(mr4: u8) -> bool
    ensures { result ≡ paper.is_hot mr4 }
{
    heat(mr4) == 0b110
}

// The quarters of tREFI that an interval has.
#[tactic(auto, unfolding(rules::specs::Heat::quarters))]
pub fn quarters(mr4: u8) -> u64
    ensures { (result ≡ paper.quarters (paper.heat mr4)) × (result ≤ 16) }
{
    match heat(mr4) {
        0b001 => 16,
        0b010 => 8,
        0b100 => 2,
        0b101 | 0b110 => 1,
        _ => 4,
    }
}
