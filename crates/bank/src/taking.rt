// What an entry that was taken changes in the record.
#![tactic(auto, using(pins::proofs::Unlisted::unlisted), unfolding(crate::proofs::Opened::taking))]

ghost use Rattle.std.specs.Prelude.{◌≡◌, set};
ghost use Rattle.pins.specs.Values.{command_of, moved_of, whose_of};
ghost use Rattle.bank.specs.After.{Changed, modes_after, once_at, put_each, put_noted, shifted, pushed_on, four_after, latest_after, moves_after, bus_after, opened_after, stamped_after, banks_after, share_after, ShareChanged};

use crate::{
    Banks, Bus, Each, Four, Latest, Ledgers, Moves, Noted, NotedEach, Once, Record, Share,
};
use card::Modes;
use ledger::{Ledger, Pace};
use pins::{Command, Level, Move, Whose};

// Of an entry that was taken. A function, since other crates call it.
pub fn once_at(t: u32) -> Once
    ensures { result ≡ once_at t }
{
    Once { seen: true, at: t }
}

// One bank's place changed; a bank above 7 changes nothing.
fn put<T: Copy>(mut places: [T; 8], bank: u8, x: T) -> [T; 8]
    ensures { result ≡ set places bank x }
{
    if bank < 8 {
        places[usize::from(bank)] = x;
    }
    places
}

impl Each {
    fn put(self, bank: u8, stamp: u32) -> Each
        ensures { result ≡ put_each bank stamp self }
    {
        Each {
            seen: put(self.seen, bank, true),
            at: put(self.at, bank, stamp),
        }
    }
}

impl NotedEach {
    fn put(self, bank: u8, stamp: u32, modes: Modes) -> NotedEach
        ensures { result ≡ put_noted bank stamp modes self }
    {
        NotedEach {
            seen: put(self.seen, bank, true),
            at: put(self.at, bank, stamp),
            modes: put(self.modes, bank, modes),
        }
    }
}

fn modes_after(modes: Modes, command: Command) -> Modes
    ensures { result ≡ modes_after (command_of command) modes }
{
    match command {
        Command::Mrw { ma: 1, op } => Modes {
            programmed: true,
            mr1: op,
            ..modes
        },
        Command::Mrw { ma: 2, op } => Modes { mr2: op, ..modes },
        _ => modes,
    }
}

// An array that is passed and returned, shifted by one, as document 01 names it.
fn shift(at: [u32; 4], stamp: u32) -> [u32; 4]
    ensures { result ≡ shifted stamp at }
{
    [stamp, at[0], at[1], at[2]]
}

// The oldest of five is dropped.
pub fn pushed(x: Four, t: u32) -> Four
    ensures { result ≡ pushed_on t x }
{
    Four {
        count: x.count.min(3) + 1,
        at: shift(x.at, t),
    }
}

impl Four {
    fn after(self, command: Command, stamp: u32) -> Four
        ensures { result ≡ four_after (command_of command) stamp self }
    {
        match command {
            Command::Act { .. } | Command::Refpb => pushed(self, stamp),
            _ => self,
        }
    }
}

impl Latest {
    fn after(self, command: Command, stamp: u32) -> Latest
        ensures { result ≡ latest_after (command_of command) stamp self }
    {
        let now = once_at(stamp);
        match command {
            Command::Mrw { .. } => Latest { mrw: now, ..self },
            Command::Mrr { .. } => Latest { mrr: now, ..self },
            Command::Refab => Latest { refab: now, ..self },
            Command::Refpb => Latest { refpb: now, ..self },
            Command::Prea => Latest { prea: now, ..self },
            _ => self,
        }
    }
}

impl Moves {
    // Deep power-down is not left, and nothing rises from awake.
    fn after(self, moved: Move, stamp: u32) -> Moves
        ensures { result ≡ moves_after (moved_of moved) stamp self }
    {
        let now = once_at(stamp);
        match moved {
            Move::Falls(_) => Moves { fall: now, ..self },
            Move::Rises(Level::PowerDown) => Moves {
                power_exit: now,
                ..self
            },
            Move::Rises(Level::SelfRefresh) => Moves {
                self_exit: now,
                ..self
            },
            Move::Rises(Level::Awake | Level::Deep) | Move::Stays => self,
        }
    }
}

impl Bus {
    // The mode registers as they stood before the entry.
    fn after(self, command: Command, stamp: u32, modes: Modes) -> Bus
        ensures { result ≡ bus_after (command_of command) stamp modes self }
    {
        let now = Noted {
            seen: true,
            at: stamp,
            modes,
        };
        match command {
            Command::Mrr { .. } => Bus { turn: now, ..self },
            Command::Rd { .. } => Bus {
                rd: once_at(stamp),
                turn: now,
                ..self
            },
            Command::Wr { .. } => Bus { wr: now, ..self },
            _ => self,
        }
    }
}

fn opened_after(opened: [bool; 8], command: Command) -> [bool; 8]
    ensures { result ≡ opened_after (command_of command) opened }
{
    match command {
        Command::Act { bank, .. } => put(opened, bank, true),
        Command::Rd { bank, ap: true, .. }
        | Command::Wr { bank, ap: true, .. }
        | Command::Pre { bank } => put(opened, bank, false),
        Command::Prea => [false; 8],
        _ => opened,
    }
}

impl Banks {
    // The stamps of each bank alone.
    fn stamped(self, command: Command, counter: u8, stamp: u32, modes: Modes) -> Banks
        ensures { result ≡ stamped_after (command_of command) counter stamp modes self }
    {
        match command {
            Command::Refpb => Banks {
                refpb: self.refpb.put(counter, stamp),
                ..self
            },
            Command::Act { bank, .. } => Banks {
                act: self.act.put(bank, stamp),
                ..self
            },
            Command::Rd { bank, ap, .. } => Banks {
                rd: self.rd.put(bank, stamp),
                rda: if ap {
                    self.rda.put(bank, stamp)
                } else {
                    self.rda
                },
                ..self
            },
            Command::Wr { bank, ap, .. } => Banks {
                wr: self.wr.put(bank, stamp, modes),
                wra: if ap {
                    self.wra.put(bank, stamp, modes)
                } else {
                    self.wra
                },
                ..self
            },
            Command::Pre { bank } => Banks {
                pre: self.pre.put(bank, stamp),
                ..self
            },
            _ => self,
        }
    }

    fn after(self, command: Command, counter: u8, stamp: u32, modes: Modes) -> Banks
        ensures { result ≡ banks_after (command_of command) counter stamp modes self }
    {
        Banks {
            opened: opened_after(self.opened, command),
            ..self.stamped(command, counter, stamp, modes)
        }
    }
}

pub fn share_after(x: Share, stamp: u32, command: Command, moved: Move, ledger: Ledger) -> Share
    ensures { result ≡ share_after x (command_of command) (moved_of moved) stamp ledger }
{
    Share {
        modes: modes_after(x.modes, command),
        counter: pins::counter_after(x.counter, command, moved),
        latest: x.latest.after(command, stamp),
        moves: x.moves.after(moved, stamp),
        bus: x.bus.after(command, stamp, x.modes),
        four: x.four.after(command, stamp),
        banks: x.banks.after(command, x.counter, stamp, x.modes),
        ledger,
    }
}

// Of a part whose own entry it is, or is not: what the entry says of each part, so that both are asked alike.
fn share_taken(
    own: bool,
    x: Share,
    stamp: u32,
    command: Command,
    moved: Move,
    ledger: Ledger,
) -> Share
    ensures { ShareChanged own x stamp (command_of command) (moved_of moved) ledger result }
{
    if own {
        share_after(x, stamp, command, moved, ledger)
    } else {
        Share { ledger, ..x }
    }
}

// The record after an entry that was taken, of one part or of both, recorded as the command and with this move of clock-enable, with the ledgers and the pace
// then.
pub fn after(
    rec: Record,
    stamp: u32,
    whose: Whose,
    command: Command,
    moved: Move,
    ledgers: Ledgers,
    pace: Pace,
) -> Record
    ensures { Changed rec stamp (whose_of whose) (command_of command) (moved_of moved) ledgers pace result }
{
    let of_first = pins::is_first(whose);
    let of_second = pins::is_second(whose);
    Record {
        card: rec.card,
        last: once_at(stamp),
        pace,
        first: share_taken(of_first, rec.first, stamp, command, moved, ledgers.first),
        second: share_taken(of_second, rec.second, stamp, command, moved, ledgers.second),
    }
}
