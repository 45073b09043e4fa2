// Making a radio, and its put, take and fade.
ghost use Rattle.std.specs.Prelude.{◌≡◌, ◌<◌, [], length, IfOk, IfNone, IfSome};
ghost use Rattle.radio.specs.Draws.{draws_after, pick};
ghost use Rattle.radio.specs.Holds.{Heard, Lost, Sent, byte_of, draws_of, slips_of};
ghost use Rattle.wire.specs.Lawful.{faded_lawful, taken_lawful};
ghost use Rattle.wire.specs.Waiting.{Faded, Taken};

use super::Radio;
use slip::{Fault, Slip, check_form};
use std::alloc::{AllocError, Global};
use wire::{Wire, full};

// How many slips a radio holds.
const ROOM: usize = 32;

// From this byte on, a slip that is taken stays waiting.
const STAYS: u8 = 128;

impl<'a> Radio<'a> {
    // A silent radio that draws from these bytes, with memory for all the slips that it may hold.
    pub fn new(heap: Global, draws: &'a [u8]) -> Result<Radio<'a>, AllocError>
        ensures { IfOk result (λ w. (slips_of w ≡ []) × (draws_of w ≡ draws.now)) }
    {
        let slips = Vec::with_capacity(heap, ROOM)?;
        Ok(Radio { slips, draws })
    }

    // Draws the next byte, 0 when none is left, and picks by it the place of a slip; draws nothing where none waits.
    fn pick(&mut self) -> Option<(u8, usize)>
        ensures none { IfNone result ((slips_of self.old ≡ []) × (self.new ≡ self.old)) }
        ensures some { IfSome result (λ (byte, at). (byte ≡ byte_of self.old) × (at ≡ pick (slips_of self.old) byte) × (at < length (slips_of self.old))) }
        ensures slips { self.new.slips ≡ self.old.slips }
        ensures draws { draws_of self.new ≡ draws_after (slips_of self.old) (draws_of self.old) }
    {
        if self.slips.is_empty() {
            return None;
        }
        let (byte, left) = self.draws.split_first().unwrap_or((&0, &[]));
        self.draws = left;
        Some((*byte, usize::from(*byte) % self.slips.len()))
    }
}

impl<'a> Wire for Radio<'a> {
    ghost waiting = { slips_of };

    ghost room = { λ _. 32 };

    ghost formed = { λ r. r.inform };

    ghost picks = { Taken };

    ghost picking = { taken_lawful };

    ghost loses = { Faded };

    ghost losing = { faded_lawful };

    ghost puts = { Sent };

    ghost takes = { Heard };

    ghost fades = { Lost };

    fn put(&mut self, slip: Slip) -> Result<(), Fault> {
        check_form(&slip)?;
        if self.slips.len() >= ROOM {
            return Err(full(self.slips.len() as u32));
        }
        self.slips.push_reserved(slip);
        Ok(())
    }

    #[tactic(auto, using(crate::proofs::Picks::picked_some, crate::proofs::Picks::taken_goes, crate::proofs::Picks::taken_stays))]
    fn take(&mut self) -> Option<Slip> {
        let (byte, at) = self.pick()?;
        if byte >= STAYS {
            return Some(self.slips[at]);
        }
        Some(self.slips.remove(at))
    }

    fn fade(&mut self) {
        if let Some((_, at)) = self.pick() {
            self.slips.remove(at);
        }
    }
}
