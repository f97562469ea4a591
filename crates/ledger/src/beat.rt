// When refreshes are due, on plain numbers: those of the counted cycles.
ghost use Rattle.std.specs.Prelude.{◌≡◌, ◌<◌, ◌^◌};

// Dues at number `next`, which may be any, and every `span` after it.
#[derive(Clone, Copy)]
pub struct Beat {
    pub next: u64,
    pub span: u64,
    ghost positive: { 0 < span },
    ghost small: { span < 2 ^ 46 },
}

impl Beat {
    ghost use Rattle.rules.specs.Account as paper;
    ghost use Rattle.ledger.specs.Parts.{beat_as};

    // How many are at numbers up to n.
    pub fn fallen(self, n: u32) -> u64
        ensures { result ≡ paper.fallen (beat_as self) n }
    {
        let m = u64::from(n);
        if m < self.next {
            0
        } else {
            (m - self.next) / self.span + 1
        }
    }

    // The first after it.
    pub fn next_after(self, n: u32) -> u64
        ensures { result ≡ paper.next_after (beat_as self) n }
    {
        self.next + self.fallen(n) * self.span
    }
}
