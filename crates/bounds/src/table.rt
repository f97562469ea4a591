// The first cycles that the rules permit an offer, several of one function in their order. A rule that does not speak of it asks for no bank: 0.
#![tactic(auto, using(crate::proofs::Ruled::by_rule), unfolding(crate::proofs::Ruled::opened))]

ghost use Rattle.std.specs.Prelude.{◌≡◌, [], ◌∷◌};
ghost use Rattle.pins.specs.Values.{moved_of};
ghost use Rattle.bounds.specs.Parts.{bounds_of, still_of, moving_of};

use crate::across::across;
use crate::answers::Ask;
use crate::banks::{self, Banks};
use crate::delays::{Delay, Lag};
use crate::kinds::{
    is_act, is_active, is_column, is_not_nop, is_reading, is_writing, waits_for_any, waits_for_own,
};
use crate::moves;
use crate::offer::Offer;
use bank::Bus;
use pins::Level;

impl Offer<'_> {
    // Rules 1, 2 and 3.
    fn all_banks(&self) -> [u64; 3]
        ensures { result ≡ still_of self.now 1 ∷ still_of self.now 2 ∷ still_of self.now 3 ∷ [] }
    {
        let busy = self.own_if(is_not_nop(self.command));
        [
            self.after(Ask::Mrw, busy, self.delays.tmrw.into()),
            self.after(Ask::Mrr, busy, self.delays.tmrr.into()),
            self.after(Ask::Refab, busy, self.delays.trfcab.into()),
        ]
    }

    // Rule 4.
    fn after_refpb(&self) -> u64
        ensures { result ≡ still_of self.now 4 }
    {
        let any = self.own_if(waits_for_any(self.command));
        let own = self.own_if(waits_for_own(self.command));
        self.after(Ask::Refpb, any, self.delays.trfcpb.into())
            .max(self.after(Ask::RefpbTo, own, self.delays.trfcpb.into()))
    }

    // Rules 5 and 6.
    fn after_precharge(&self) -> [u64; 2]
        ensures { result ≡ still_of self.now 5 ∷ still_of self.now 6 ∷ [] }
    {
        let idle = banks::idle(self.command, self.share.counter);
        [
            self.after(Ask::PreTo, idle, self.delays.trppb.into()),
            self.after(Ask::PreaTo, idle, self.delays.trpab.into()),
        ]
    }

    // Rules 7, 8 and 9.
    fn after_act(&self) -> [u64; 3]
        ensures { result ≡ still_of self.now 7 ∷ still_of self.now 8 ∷ still_of self.now 9 ∷ [] }
    {
        let column = self.own_if(is_column(self.command));
        let precharged = banks::precharged(self.command);
        let idle = banks::idle(self.command, self.share.counter);
        [
            self.after(Ask::ActTo, column, self.delays.trcd.into()),
            self.after(Ask::ActTo, precharged, self.delays.tras.into()),
            self.after(Ask::ActTo, idle, self.delays.trc.into()),
        ]
    }

    // Rule 10.
    fn other_banks(&self) -> u64
        ensures { result ≡ still_of self.now 10 }
    {
        let others = Banks::AllBut(self.bank());
        let active = is_active(self.command).then_some(others);
        let act = is_act(self.command).then_some(others);
        self.after(Ask::ActTo, active, self.delays.trrd.into())
            .max(self.after(Ask::RefpbTo, act, self.delays.trrd.into()))
    }

    // Rule 11.
    fn four_before(&self) -> u64
        ensures { result ≡ still_of self.now 11 }
    {
        let active = self.own_if(is_active(self.command));
        self.after(Ask::FourthLast, active, self.delays.tfaw.into())
    }

    // Rule 12.
    fn bursts(&self) -> u64
        ensures { result ≡ still_of self.now 12 }
    {
        let reading = self.own_if(is_reading(self.command));
        let writing = self.own_if(is_writing(self.command));
        self.after(Ask::Rd, reading, 4.into())
            .max(self.after(Ask::Wr, writing, 4.into()))
    }

    // Rules 13 and 14.
    fn turns(&self) -> [u64; 2]
        ensures { result ≡ still_of self.now 13 ∷ still_of self.now 14 ∷ [] }
    {
        let writing = self.own_if(is_writing(self.command));
        let reading = self.own_if(is_reading(self.command));
        [
            self.after(Ask::RdOrMrr, writing, Delay::to_write(self.delays)),
            self.after(Ask::Wr, reading, Delay::to_read(self.delays)),
        ]
    }

    // Rules 15 and 16.
    fn after_rd(&self) -> [u64; 2]
        ensures { result ≡ still_of self.now 15 ∷ still_of self.now 16 ∷ [] }
    {
        let precharged = banks::precharged(self.command);
        let idle = banks::idle(self.command, self.share.counter);
        let least = self.delays.trtp.max(4);
        let closed = Delay::new(Lag::Plain, least, self.delays.trppb);
        [
            self.after(Ask::RdTo, precharged, least.into()),
            self.after(Ask::RdaTo, idle, closed),
        ]
    }

    // Rules 17 and 18.
    fn after_wr(&self) -> [u64; 2]
        ensures { result ≡ still_of self.now 17 ∷ still_of self.now 18 ∷ [] }
    {
        let precharged = banks::precharged(self.command);
        let idle = banks::idle(self.command, self.share.counter);
        let recovered = Delay::new(Lag::Written, 5, self.delays.twr);
        let closed = Delay::new(Lag::Recovered(self.delays.twr), 5, self.delays.trppb);
        [
            self.after(Ask::WrTo, precharged, recovered),
            self.after(Ask::WraTo, idle, closed),
        ]
    }

    // Rule 21: a rise from the latest fall, a fall from the latest rise, which is the later of the two exits.
    fn between_moves(&self) -> u64
        ensures { result ≡ moving_of self.now 21 }
    {
        let rising = self.own_if(moves::rises(self.moved));
        let falling = self.own_if(moves::falls(self.moved));
        self.after(Ask::Fall, rising, self.delays.tcke.into())
            .max(self.after(Ask::PowerExit, falling, self.delays.tcke.into()))
            .max(self.after(Ask::SelfExit, falling, self.delays.tcke.into()))
    }

    // Rules 22 and 24.
    fn after_exit(&self) -> [u64; 2]
        ensures { result ≡ still_of self.now 22 ∷ still_of self.now 24 ∷ [] }
    {
        let busy = self.own_if(is_not_nop(self.command));
        [
            self.after(Ask::PowerExit, busy, self.delays.txp.into()),
            self.after(Ask::SelfExit, busy, self.delays.txsr.into()),
        ]
    }

    // Rule 23.
    fn in_self_refresh(&self) -> u64
        ensures { result ≡ moving_of self.now 23 }
    {
        let leaving = self.own_if(pins::rises_from(Level::SelfRefresh, self.moved));
        self.after(Ask::Fall, leaving, self.delays.tckesr.into())
    }

    // Of all rules, the other part's bus being `theirs`.
    #[tactic(auto, using(crate::proofs::Ruled::by_number))]
    pub fn bounds(&self, theirs: &Bus) -> [u64; 25]
        ensures { result ≡ bounds_of self.now.share.now theirs.now self.now.delays.now self.now.command (moved_of self.now.moved) }
    {
        let [rule_1, rule_2, rule_3] = self.all_banks();
        let rule_4 = self.after_refpb();
        let [rule_5, rule_6] = self.after_precharge();
        let [rule_7, rule_8, rule_9] = self.after_act();
        let rule_10 = self.other_banks();
        let rule_11 = self.four_before();
        let rule_12 = self.bursts();
        let [rule_13, rule_14] = self.turns();
        let [rule_15, rule_16] = self.after_rd();
        let [rule_17, rule_18] = self.after_wr();
        let rule_21 = self.between_moves();
        let [rule_22, rule_24] = self.after_exit();
        let rule_23 = self.in_self_refresh();
        let [rule_25, rule_26, rule_27] = across(theirs, self.delays, self.command);
        [
            rule_1, rule_2, rule_3, rule_4, rule_5, rule_6, rule_7, rule_8, rule_9, rule_10,
            rule_11, rule_12, rule_13, rule_14, rule_15, rule_16, rule_17, rule_18, rule_21,
            rule_22, rule_23, rule_24, rule_25, rule_26, rule_27,
        ]
    }
}
