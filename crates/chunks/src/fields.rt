// One field at a time.
ghost use Rattle.std.specs.Prelude.{◌≡◌, ◌-◌, ◌≤◌, true, length, slice_index};
ghost use Rattle.rules.specs.Form as form;
ghost use Rattle.chunks.specs.Took as took;
ghost use Rattle.chunks.specs.Parts.{field_in, NotTaken, end_on, NoneHere, refusal_in, whole_as, took_in};

use crate::numbers::Numbers;
use crate::{END, ENTRY, SENSED, State};
use bank::Ledgers;
use step::Ran;

// A whole field: how many bytes it has, and the state behind it.
#[derive(Clone, Copy)]
pub struct Taken {
    pub size: usize,
    pub state: State,
}

impl State {
    fn take_card(&self, bytes: &[u8]) -> Result<State, Numbers>
        requires { 3 ≤ length bytes.now }
        ensures { whole_as self.now (length bytes.now) result ≡ took.card_took self.now (field_in bytes.now) }
    {
        let rec = &self.rec;
        let card = card::read_value(rec.card, rec.last.seen, self.tag, bytes[0], &bytes[3..])?;
        Ok(State {
            tag: bytes[0],
            rec: bank::fresh_record(card),
            offset: self.offset.wrapping_add(bytes.len() as u64),
            ..*self
        })
    }

    // What an entry of pins that is not taken is refused with.
    #[tactic(auto, using(crate::proofs::Taking::step_refuses, crate::proofs::Taking::entry_refused_lem))]
    fn entry_refused(&self, bytes: &[u8]) -> Numbers
        requires { NotTaken self.now.rec bytes.now }
        ensures { took.refused_here self.now (refusal_in result) ≡ took.entry_took self.now (field_in bytes.now) }
    {
        let front = pins::entry_at(bytes, 0).unwrap();
        let stepped = step::step(self.rec, front.stamp, front.pins);
        stepped.answer.unwrap_err().into()
    }

    // A temperature. It is neither counted nor printed.
    fn take_sensed(&self, bytes: &[u8]) -> Result<State, Numbers>
        requires { (length bytes.now ≡ 8) × (slice_index bytes.now 0 ≡ 34) }
        ensures { whole_as self.now (length bytes.now) result ≡ took.entry_took self.now (field_in bytes.now) }
    {
        let stepped = step::sense(self.rec, pins::stamp_at(bytes, 3), bytes[7]);
        stepped.answer?;
        Ok(self.with(Ran {
            rec: stepped.rec,
            used: 8,
            commands: 0,
            refreshes: 0,
        }))
    }

    // Behind the end: the record's ledgers then stand at E.
    #[tactic(auto, unfolding(crate::specs::Parts::end_on, crate::specs::Took::record_closed, crate::specs::Took::wrapped))]
    fn closed(&self, ledgers: Ledgers) -> State
        ensures { result ≡ end_on self.now ledgers }
    {
        let mut rec = self.rec;
        rec.first.ledger = ledgers.first;
        rec.second.ledger = ledgers.second;
        State {
            tag: END,
            rec,
            offset: self.offset.wrapping_add(7),
            ..*self
        }
    }

    fn take_end(&self, bytes: &[u8]) -> Result<State, Numbers>
        requires { length bytes.now ≡ 7 }
        ensures { whole_as self.now (length bytes.now) result ≡ took.end_took self.now (field_in bytes.now) }
    {
        let paid = bank::close(self.rec, pins::stamp_at(bytes, 3));
        paid.answer?;
        Ok(self.closed(paid.ledgers))
    }

    // A field that is whole, and no entry of pins that is taken.
    #[tactic(auto, using(crate::proofs::Sizes::sensed_size, crate::proofs::Sizes::end_size), unfolding(crate::specs::Took::field_took, rules::specs::Form::of_entry, crate::specs::Parts::field_in, crate::specs::Parts::whole_as))]
    fn take_whole(&self, bytes: &[u8]) -> Result<State, Numbers>
        requires in_bounds { (3 ≤ length bytes.now) × (form.length_good (slice_index bytes.now 0) (length bytes.now - 3) ≡ true) }
        requires not_taken { slice_index bytes.now 0 ≡ 32 → NotTaken self.now.rec bytes.now }
        ensures { whole_as self.now (length bytes.now) result ≡ took.field_took self.now (field_in bytes.now) }
    {
        match bytes[0] {
            ENTRY => Err(self.entry_refused(bytes)),
            SENSED => self.take_sensed(bytes),
            END => self.take_end(bytes),
            _ => self.take_card(bytes),
        }
    }

    // The field at the start, where that is no entry of pins that is taken; none where its rest is not there yet. Behind the end field any byte is refused.
    pub(crate) fn take_field(&self, bytes: &[u8]) -> Result<Option<Taken>, Numbers>
        requires { NoneHere self.now bytes.now }
        ensures { took_in self.now result ≡ took.took_of self.now bytes.now }
    {
        if self.tag == END {
            return if bytes.is_empty() {
                Ok(None)
            } else {
                Err(Numbers::only(12))
            };
        }
        let Some(size) = self.field_size(bytes)? else {
            return Ok(None);
        };
        let next = self.take_whole(&bytes[..size])?;
        Ok(Some(Taken { size, state: next }))
    }
}
