// The head of what is left: tag, length, cut.
ghost use Rattle.std.specs.Prelude.{◌≡◌};
ghost use Rattle.chunks.specs.Took.{head_at};
ghost use Rattle.chunks.specs.Parts.{head_in, head_as};

use crate::State;
use card::Unread;

impl State {
    // How many bytes the field has that begins here; none where its rest is not there yet. In the order of `head_at`: tag, then length, then cut.
    pub(crate) fn field_size(&self, bytes: &[u8]) -> Result<Option<usize>, Unread>
        ensures { head_in result ≡ head_as (head_at self.now bytes.now) }
    {
        if bytes.is_empty() {
            return Ok(None);
        }
        let begun = self.rec.last.seen;
        let tag = bytes[0];
        if !card::may_come(begun, self.tag, tag) {
            let wrong = card::wrong_tag(begun, self.tag, self.rec.card.sleeps, tag);
            return Err(Unread::Tag(wrong));
        }
        if bytes.len() < 3 {
            return Ok(None);
        }
        let size = usize::from(u16::from_be_bytes([bytes[1], bytes[2]]));
        if !card::length_good(tag, size) {
            return Err(Unread::Length);
        }
        if bytes.len() - 3 < size {
            return Ok(None);
        }
        Ok(Some(3 + size))
    }
}
