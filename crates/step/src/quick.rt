// How far a quick run has come: what its entries change of a record, changed in place.
ghost use Rattle.std.specs.Prelude.{◌≡◌, ◌+◌, ◌-◌, ◌/◌, ◌^◌, ◌≤◌, ◌<◌};
ghost use Rattle.bank.specs.After.{put_each, put_noted};
ghost use Rattle.step.specs.Runs.{ran};
ghost use Rattle.step.specs.declared.kinds.Hot.TheVariants.{Rd, Wr};
ghost use Rattle.step.specs.Quick.{quick_in, parts_by, taken_by, now_of, EndArgs};

use crate::Ran;
use crate::kinds::{Hot, ap_on, bank_on};
use crate::single::Single;
use bank::{Banks, Bus, Each, Four, Noted, NotedEach, Once, Share};
use card::Modes;
use pins::Front;

// The last stamp, the bytes taken, and how many of the entries are NOP.
#[derive(Clone, Copy)]
pub struct Quick {
    pub banks: Banks,
    pub bus: Bus,
    pub four: Four,
    pub last: u32,
    pub used: usize,
    pub nops: usize,
}

// Behind a borrow, where `bank` puts by value; two functions, since a record lends two types.
fn put(each: &mut Each, bank: usize, at: u32)
    requires { bank < 8 }
    ensures { each.new ≡ put_each bank at each.old }
{
    each.seen[bank] = true;
    each.at[bank] = at;
}

fn note(each: &mut NotedEach, bank: usize, at: u32, modes: Modes)
    requires { bank < 8 }
    ensures { each.new ≡ put_noted bank at modes each.old }
{
    each.seen[bank] = true;
    each.at[bank] = at;
    each.modes[bank] = modes;
}

impl Quick {
    pub fn of(rec: Single) -> Quick
        ensures { result ≡ quick_in rec }
    {
        Quick {
            banks: rec.share.banks,
            bus: rec.share.bus,
            four: rec.share.four,
            last: rec.last.at,
            used: 0,
            nops: 0,
        }
    }

    fn read(&mut self, bank: usize, ap: bool, at: u32, modes: Modes)
        requires { bank < 8 }
        ensures { self.new ≡ parts_by Rd bank ap at modes self.old }
    {
        self.bus.rd = Once { seen: true, at };
        self.bus.turn = Noted {
            seen: true,
            at,
            modes,
        };
        put(&mut self.banks.rd, bank, at);
        if ap {
            put(&mut self.banks.rda, bank, at);
            self.banks.opened[bank] = false;
        }
    }

    fn write(&mut self, bank: usize, ap: bool, at: u32, modes: Modes)
        requires { bank < 8 }
        ensures { self.new ≡ parts_by Wr bank ap at modes self.old }
    {
        self.bus.wr = Noted {
            seen: true,
            at,
            modes,
        };
        note(&mut self.banks.wr, bank, at, modes);
        if ap {
            note(&mut self.banks.wra, bank, at, modes);
            self.banks.opened[bank] = false;
        }
    }

    // One more entry.
    pub fn take(&mut self, kind: Hot, front: Front, modes: Modes)
        requires used_room { self.old.used + 10 < 2 ^ 64 }
        requires nops_room { self.old.nops + 1 < 2 ^ 64 }
        ensures { self.new ≡ taken_by kind front modes self.old }
    {
        let at = front.stamp;
        let bank = bank_on(front.pins);
        self.last = at;
        self.used += 10;
        match kind {
            Hot::Nop => self.nops += 1,
            Hot::Act => {
                self.four = bank::pushed(self.four, at);
                put(&mut self.banks.act, bank, at);
                self.banks.opened[bank] = true;
            }
            Hot::Rd => self.read(bank, ap_on(front.pins), at, modes),
            Hot::Wr => self.write(bank, ap_on(front.pins), at, modes),
            Hot::Pre => {
                put(&mut self.banks.pre, bank, at);
                self.banks.opened[bank] = false;
            }
            Hot::Cold => {}
        }
    }

    // The record put together again, its ledger moved on to the last entry.
    pub fn ended(self, rec: Single) -> Ran<Single>
        requires end_args { EndArgs rec self.last }
        requires nops_bound { self.nops ≤ self.used / 10 }
        ensures { result ≡ ran (now_of rec self.banks self.bus self.four self.last) self.used (self.used / 10 - self.nops) 0 }
    {
        let moved = ledger::moved(rec.share.ledger, rec.pace, rec.card, self.last);
        Ran {
            rec: Single {
                last: Once {
                    seen: true,
                    at: self.last,
                },
                share: Share {
                    bus: self.bus,
                    four: self.four,
                    banks: self.banks,
                    ledger: moved.ledger,
                    ..rec.share
                },
                ..rec
            },
            used: self.used,
            commands: (self.used / 10 - self.nops) as u64,
            refreshes: 0,
        }
    }
}
