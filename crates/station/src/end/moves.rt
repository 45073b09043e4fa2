// What the operators' calls do at an end: each method equals its rule, in answer and record together.
// Each is told its place, which its refusals name. That a refusal leaves the whole record as it was is said beside the rule, which speaks of
// rows, serials and signal: not even the memory of the lists is another.
ghost use Rattle.rules.specs.Ends.{idle};
ghost use Rattle.rules.specs.Moves.{arrived, entered, go_in_lem, held as held_row, next_serial_lem, presented, repeated, shown, withdrawn};
ghost use Rattle.station.specs.Records.{asking_noted, kept};
ghost use Rattle.std.specs.Prelude.{◌≡◌, ◌<◌, ◌≤◌, true, false, is_some, is_ok, IfOk, length};

use super::{Asking, Station};
use rules::{HeldRow, Permission, RowState, Word};
use slip::{Cause, Fault, Message, Train};
use std::alloc::{AllocError, Global};

// How many rows a list of rows has at most.
const MOST: usize = 4;

impl Station {
    // An end with no rows, its signal at Stop, and memory for all the rows that it may come to have.
    pub fn new(heap: Global, start: u32) -> Result<Station, AllocError>
        ensures { IfOk result (λ s. kept s ≡ idle start) }
    {
        let own = Vec::with_capacity(heap, MOST)?;
        let promised = Vec::with_capacity(heap, MOST)?;
        Ok(Station {
            own,
            promised,
            used: start,
            heard: start,
            signal: None,
        })
    }

    // The serial of a new asking for a train, or why there is none.
    pub fn next_serial(&self, place: u32, train: Train) -> Result<u32, Fault>
        ensures value { result ≡ next_serial_lem place train (kept self.now) }
        ensures few { (length (kept self.now).own ≤ 4) × (length (kept self.now).promised ≤ 4) }
    {
        if !self.promised.is_empty() {
            return Err(Cause::HasPromised.at(place));
        }
        if !self.is_all_in() {
            return Err(Cause::RowOpen.at(place));
        }
        if self.own.len() >= MOST {
            return Err(Cause::RowsFull.at(place));
        }
        if self.row_of(train).is_some() {
            return Err(Cause::TrainHasRow.at(place));
        }
        if self.used == u32::MAX {
            return Err(Cause::SerialsUsedUp.at(place));
        }
        Ok(self.used + 1)
    }

    // Notes a new asking; none, and nothing noted, where there is no place for its row (any caller may ask, so that it cannot be required).
    pub fn note_asking(&mut self, asking: Asking) -> Option<()>
        ensures { (result, kept self.new) ≡ asking_noted asking (kept self.old) }
    {
        if self.own.len() >= MOST {
            return None;
        }
        self.own.push_reserved(asking.into_own_row());
        self.used = asking.serial;
        Some(())
    }

    // Takes the newest asking back.
    pub fn withdraw(&mut self, place: u32) -> Result<Word, Fault>
        ensures value { (result, kept self.new) ≡ withdrawn place (kept self.old) }
        ensures refused { is_ok result ≡ false → self.new ≡ self.old }
    {
        let Some(row) = self.newest_row() else {
            return Err(Cause::NoSuchRow.at(place));
        };
        match row.state {
            RowState::Asking | RowState::Held(_) => {
                self.renew(row, RowState::Withdrawing);
                self.signal = None;
                Ok(Word {
                    message: Message::Withdraw,
                    serial: row.serial,
                })
            }
            RowState::In(_) | RowState::Withdrawing => Err(Cause::NoSuchRow.at(place)),
        }
    }

    // The Held row, if there is one.
    pub fn held(&self) -> Option<HeldRow>
        ensures value { result ≡ held_row (kept self.now) }
        ensures some { is_some result ≡ true → 0 < length (kept self.now).own }
    {
        let row = self.newest_row()?;
        match row.state {
            RowState::Held(permission) => Some(HeldRow { row, permission }),
            RowState::Asking | RowState::In(_) | RowState::Withdrawing => None,
        }
    }

    // Shows at the signal what is held.
    pub fn show(&mut self, place: u32) -> Result<Permission, Fault>
        ensures value { (result, kept self.new) ≡ shown place (kept self.old) }
        ensures refused { is_ok result ≡ false → self.new ≡ self.old }
    {
        let held = self.held().ok_or(Cause::NoSuchRow.at(place))?;
        self.signal = Some(held.permission);
        Ok(held.permission)
    }

    // The Held row's train goes in.
    fn go_in(&mut self, held: HeldRow) -> Word
        ensures { (Ok result, kept self.new) ≡ go_in_lem (kept self.old) held }
    {
        self.renew(held.row, RowState::In(held.permission));
        self.signal = None; // behind the train
        Word {
            message: Message::Entered,
            serial: held.row.serial,
        }
    }

    // Reports that a train has passed the signal.
    pub fn enter(&mut self, place: u32, train: Train) -> Result<Word, Fault>
        ensures value { (result, kept self.new) ≡ entered place train (kept self.old) }
        ensures refused { is_ok result ≡ false → self.new ≡ self.old }
    {
        let held = self.held().ok_or(Cause::NoSuchRow.at(place))?;
        if held.row.train != train {
            return Err(Cause::OtherTrain.at(place));
        }
        if self.signal.is_none() {
            return Err(Cause::SignalAtStop.at(place));
        }
        Ok(self.go_in(held))
    }

    // Lets a train pass the signal at Stop, by a form of this serial and train, which stand on it as two numbers.
    pub fn present(&mut self, place: u32, serial: u32, train: Train) -> Result<Word, Fault>
        ensures value { (result, kept self.new) ≡ presented place serial train (kept self.old) }
        ensures refused { is_ok result ≡ false → self.new ≡ self.old }
    {
        let held = self.held().ok_or(Cause::NoSuchRow.at(place))?;
        if held.row.serial != serial || held.row.train != train {
            return Err(Cause::OtherTrain.at(place));
        }
        Ok(self.go_in(held))
    }

    // Ends the oldest promise, whose train has arrived.
    pub fn arrive(&mut self, place: u32, train: Train) -> Result<Word, Fault>
        ensures value { (result, kept self.new) ≡ arrived place train (kept self.old) }
        ensures refused { is_ok result ≡ false → self.new ≡ self.old }
    {
        let Some(oldest) = self.promised.first().copied() else {
            return Err(Cause::NoSuchRow.at(place));
        };
        if oldest.train != train {
            return Err(Cause::OtherTrain.at(place));
        }
        if !oldest.reported {
            return Err(Cause::NotReported.at(place));
        }
        self.promised.remove(0);
        Ok(Word {
            message: Message::Out,
            serial: oldest.serial,
        })
    }

    // What the train's own row stands for, to be said again.
    pub fn repeat(&self, place: u32, train: Train) -> Result<Word, Fault>
        ensures { result ≡ repeated place train (kept self.now) }
    {
        let row = self.row_of(train).ok_or(Cause::NoSuchRow.at(place))?;
        let message = match row.state {
            RowState::Asking => Message::Wanted {
                train: row.train,
                class: row.class,
            },
            RowState::Held(_) => return Err(Cause::NoSuchRow.at(place)),
            RowState::In(_) => Message::Entered,
            RowState::Withdrawing => Message::Withdraw,
        };
        Ok(Word {
            message,
            serial: row.serial,
        })
    }
}
