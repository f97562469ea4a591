// What a line tells.
use bank::Paid;
use pins::Unwritten;
use std::fmt;
use step::Refusal;

// What a call was answered with.
#[derive(Clone, Copy)]
pub enum Told {
    Taken,
    Refused { number: u8, rule: u8, cycle: u64 },
    Owes(Owing),
    OweBoth(Owing, Owing),
}

// A ledger's number, to which the code adds 8.
#[derive(Clone, Copy)]
pub struct Owing(u8);

fn refused(number: u8) -> Told {
    Told::Refused {
        number,
        rule: 0,
        cycle: 0,
    }
}

// The documents' numbers once more, apart from those of `chunks`: what is printed is held to the documents alone.
impl From<Refusal> for Told {
    fn from(refusal: Refusal) -> Self {
        match refusal {
            Refusal::BadRecord => refused(13),
            Refusal::Early => refused(5),
            Refusal::Overdue { rule, cycle } => Told::Refused {
                number: 11,
                rule,
                cycle,
            },
            Refusal::WrongBits => refused(6),
            Refusal::Clash => refused(24),
            Refusal::Reserved => refused(7),
            Refusal::State => refused(8),
            Refusal::Barred => refused(16),
            Refusal::Value => refused(9),
            Refusal::Code => refused(26),
            Refusal::TooSoon { rule, cycle } => Told::Refused {
                number: 10,
                rule,
                cycle,
            },
        }
    }
}

impl From<ledger::Refusal> for Told {
    fn from(refusal: ledger::Refusal) -> Self {
        Told::from(Refusal::from(refusal))
    }
}

impl From<Unwritten> for Told {
    fn from(unwritten: Unwritten) -> Self {
        match unwritten {
            Unwritten::Unfit => refused(14),
            Unwritten::NoRoom => refused(15),
        }
    }
}

impl fmt::Display for Owing {
    fn fmt<W: fmt::Write>(&self, f: &mut fmt::Formatter<W>) -> fmt::Result {
        write!(f, "{}", i16::from(self.0) - 8)
    }
}

impl fmt::Display for Told {
    fn fmt<W: fmt::Write>(&self, f: &mut fmt::Formatter<W>) -> fmt::Result {
        match *self {
            Told::Taken => f.write_str("taken"),
            Told::Refused {
                number,
                rule,
                cycle,
            } => write!(f, "refused {number} {rule} {cycle}"),
            Told::Owes(owing) => write!(f, "{owing}"),
            Told::OweBoth(first, second) => write!(f, "{first} {second}"),
        }
    }
}

pub fn of_step(answer: Result<(), Refusal>) -> Told {
    match answer {
        Ok(()) => Told::Taken,
        Err(refusal) => Told::from(refusal),
    }
}

pub fn of_end(paired: bool, paid: Paid) -> Told {
    let first = Owing(paid.ledgers.first.owed);
    match paid.answer {
        Ok(()) if paired => Told::OweBoth(first, Owing(paid.ledgers.second.owed)),
        Ok(()) => Told::Owes(first),
        Err(refusal) => Told::from(refusal),
    }
}

pub fn of_move(answer: Result<(), ledger::Refusal>, owed: u8) -> Told {
    match answer {
        Ok(()) => Told::Owes(Owing(owed)),
        Err(refusal) => Told::from(refusal),
    }
}
