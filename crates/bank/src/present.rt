// The MR2 value that a part stands at.
ghost use Rattle.std.specs.Prelude.{◌≡◌, true};
ghost use Rattle.rules.specs.Registers.{mr2_good};

use card::Femtoseconds;

// One that MRW may write.
#[derive(Clone, Copy)]
pub struct Present {
    pub period: Femtoseconds,
    pub mr2: u8,
    pub ghost good: { mr2_good period.0 mr2 ≡ true },
}

impl Present {
    // Whether MRW may write a value: what equals the present one is not looked up again.
    pub fn allows(self, mr2: u8) -> bool
        ensures { result ≡ mr2_good self.period.0 mr2 }
    {
        mr2 == self.mr2 || card::mr2_good(self.period, mr2)
    }
}
