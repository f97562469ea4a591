// What the cases call, and the places of a record at which they put a value.
use pins::Level;

#[derive(Clone, Copy)]
pub enum Call {
    // The next case, a line of cases.txt. Its record starts fresh, with the bench card.
    Case(u32),
    // Whose places and ledger those behind it are; the first part's before it.
    Part(Part),
    // A fresh record with the card that stands there.
    Fresh,
    // The pins, and the stamp.
    Entry(u32, u32),
    // The value of MR4, and the stamp.
    Temperature(u8, u32),
    End(u32),
    // The ledger moved on to this cycle.
    Move(u32),
    Put(Place),
}

#[derive(Clone, Copy)]
pub enum Part {
    First,
    Second,
}

#[derive(Clone, Copy)]
pub enum Place {
    Card(OnCard),
    Last(Option<u32>),
    Next(u64),
    SensedMr4(u8),
    // Of one part.
    Share(OnShare),
}

#[derive(Clone, Copy)]
pub enum OnCard {
    // In femtoseconds.
    Period(u64),
    Mr2(u8),
    Groups(u16),
    Trefi(u32),
    Duration(Timing, u32),
    Floor(Timing, u8),
    Sleeps(bool),
    Mr1(Option<u8>),
    Paired(bool),
    Gap(u8),
    Raise(u32),
}

// Those that the cases use, by their place in the two columns.
#[derive(Clone, Copy)]
pub enum Timing {
    Trcd = 0,
    Trppb = 1,
    Tras = 3,
    Tfaw = 5,
    Trtp = 6,
    Twr = 7,
    Twtr = 8,
    Tdqsck = 9,
    Tmrr = 12,
    Tmrw = 13,
    Tcke = 14,
    Txp = 15,
    Tckesr = 16,
    Txsr = 17,
}

#[derive(Clone, Copy)]
pub enum OnShare {
    Mode(OnModes),
    Counter(u8),
    Ledger(OnLedger),
    FourCount(u8),
    // The stamp of the latest entry of a kind.
    At(Latest, u32),
    // The mode registers that are remembered with it.
    Noted(Noting, OnModes),
}

#[derive(Clone, Copy)]
pub enum OnModes {
    Mr2(u8),
    Mr1(Option<u8>),
}

#[derive(Clone, Copy)]
pub enum OnLedger {
    At(u32),
    // With 8 added.
    Owed(u8),
    Since(u32),
    Skipped(u32),
    Level(Level),
}

// Of all banks, of clock-enable, and of bank 0.
#[derive(Clone, Copy)]
pub enum Latest {
    Mrw,
    Mrr,
    Refab,
    Refpb,
    Prea,
    Four,
    Rd,
    Wr,
    Turn,
    Fall,
    PowerExit,
    SelfExit,
    Refpb0,
    Pre0,
    Act0,
    Rd0,
    Rda0,
    Wr0,
    Wra0,
}

#[derive(Clone, Copy)]
pub enum Noting {
    Wr,
    Turn,
    Wr0,
    Wra0,
}
