// Making a telegraph, and its put, take and fade.
ghost use Rattle.std.specs.Prelude.{◌≡◌, ◌+◌, ◌<◌, ◌≤◌, [], length};
ghost use Rattle.slip.specs.Bytes.{decode};
ghost use Rattle.telegraph.specs.Holds.{Handed, Unaltered, Wrote, bytes_of, next_of, places_of, slips_of, telegraph_formed};
ghost use Rattle.telegraph.specs.Ring.{place, room_of, slip_bytes_lem};
ghost use Rattle.wire.specs.Lawful.{loses_none_lawful, oldest_first_lawful};
ghost use Rattle.wire.specs.Waiting.{LosesNone, OldestFirst};

use super::Telegraph;
use slip::{Fault, LENGTH, Slip, check_form, read, write};
use wire::{Wire, full};

// The most slips that a telegraph holds, however long its buffer.
const MOST: usize = 64;

impl<'a> Telegraph<'a> {
    // A silent telegraph over a buffer; the first slip will stand at its first byte.
    pub fn new(bytes: &'a mut [u8]) -> Telegraph<'a>
        ensures bytes { bytes_of result ≡ bytes.old }
        ensures lender { result.bytes.ghost_name ≡ bytes.entry.ghost_name }
        ensures room { places_of result ≡ room_of (length bytes.old) }
        ensures next { next_of result ≡ 0 }
        ensures silent { slips_of result ≡ [] }
    {
        Telegraph {
            bytes,
            first: 0,
            count: 0,
        }
    }

    // How many slips may wait.
    fn room(&self) -> usize
        ensures { result ≡ places_of self.now }
    {
        (self.bytes.len() / LENGTH).min(MOST)
    }

    // The place k steps after that of the oldest slip.
    fn place(&self, k: usize) -> usize
        requires some { 0 < places_of self.now }
        requires near { k ≤ places_of self.now }
        ensures value { result ≡ place (places_of self.now) self.now.first k }
        ensures below { result < places_of self.now }
    {
        let at = self.first + k;
        let room = self.room();
        if at < room { at } else { at - room }
    }

    // The oldest slip.
    fn oldest(&self) -> Slip
        requires { 0 < self.now.count }
        ensures { decode (slip_bytes_lem (bytes_of self.now) self.now.first) ≡ Ok result }
    {
        let at = LENGTH * self.first;
        read(&self.bytes[at..at + LENGTH]).unwrap()
    }
}

impl<'a> Wire for Telegraph<'a> {
    ghost waiting = { slips_of };

    ghost room = { places_of };

    ghost formed = { telegraph_formed };

    ghost picks = { OldestFirst };

    ghost picking = { oldest_first_lawful };

    ghost loses = { LosesNone };

    ghost losing = { loses_none_lawful };

    ghost puts = { Wrote };

    ghost takes = { Handed };

    ghost fades = { Unaltered };

    #[tactic(auto, using(crate::specs::Formed::length_ring, std::proofs::lemmas::Bool::Decides::nat_tests))]
    fn put(&mut self, slip: Slip) -> Result<(), Fault> {
        check_form(&slip)?;
        let waiting = self.count;
        if waiting == self.room() {
            return Err(full(waiting as u32));
        }
        let at = LENGTH * self.place(waiting);
        write(&slip, &mut self.bytes[at..at + LENGTH])?;
        self.count += 1;
        Ok(())
    }

    #[tactic(auto, using(crate::proofs::Rings::ring_take))]
    fn take(&mut self) -> Option<Slip> {
        if self.count == 0 {
            return None;
        }
        let slip = self.oldest();
        self.first = self.place(1);
        self.count -= 1;
        Some(slip)
    }

    fn fade(&mut self) {}
}
