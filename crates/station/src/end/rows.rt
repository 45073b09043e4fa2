// Looking at an end's rows, and changing its newest.
ghost use Rattle.std.specs.Prelude.{◌≡◌};
ghost use Rattle.rules.specs.Ends.{newest_to, own_in, own_of_train, promise_of, with_own};
ghost use Rattle.rules.specs.Hearing.{counted, counts};
ghost use Rattle.rules.specs.Lists.{find, how_many, newest};
ghost use Rattle.rules.specs.Moves.{all_in};
ghost use Rattle.station.specs.Places.{Placed};
ghost use Rattle.station.specs.Records.{kept};

use super::Station;
use rules::{OwnRow, PromisedRow, RowState};
use slip::{Class, Train};

// Whether the book counts a train of this class among those that carry passengers.
fn carries_passengers(class: Class) -> bool
    ensures { result ≡ counts class }
{
    matches!(class, Class::Passenger)
}

impl Station {
    // The newest own row.
    #[tactic(auto, using(crate::proofs::Rows::newest_at))]
    pub(super) fn newest_row(&self) -> Option<OwnRow>
        ensures { result ≡ newest (kept self.now).own }
    {
        self.own.last().copied()
    }

    // Whether no own row is open: there is none, or the newest one's train is in.
    pub(super) fn is_all_in(&self) -> bool
        ensures { result ≡ all_in (newest (kept self.now).own) }
    {
        self.newest_row().is_none_or(|row| row.state.is_in())
    }

    // Puts the newest own row, which is this one, into another state.
    pub(super) fn renew(&mut self, row: OwnRow, state: RowState)
        ensures { kept self.new ≡ with_own (kept self.old) (newest_to (kept self.old) row state) (kept self.old).signal }
    {
        if let Some(newest) = self.own.last_mut() {
            *newest = OwnRow { state, ..row };
        }
    }

    // The first own row of a train.
    pub(super) fn row_of(&self, train: Train) -> Option<OwnRow>
        ensures { result ≡ find (own_of_train train) (kept self.now).own }
    {
        self.own.iter().copied().find(|row| row.train == train)
    }

    // The place of the first own row of this serial whose train is in.
    pub(super) fn place_in(&self, serial: u32) -> Option<usize>
        ensures { Placed (own_in serial) (kept self.now).own result }
    {
        self.own
            .iter()
            .position(|row| row.serial == serial && row.state.is_in())
    }

    // The first promised row of this serial.
    pub(super) fn promised_row(&self, serial: u32) -> Option<PromisedRow>
        ensures { result ≡ find (promise_of serial) (kept self.now).promised }
    {
        self.promised
            .iter()
            .copied()
            .find(|row| row.serial == serial)
    }

    // The place of the first promised row of this serial.
    pub(super) fn place_promised(&self, serial: u32) -> Option<usize>
        ensures { Placed (promise_of serial) (kept self.now).promised result }
    {
        self.promised.iter().position(|row| row.serial == serial)
    }

    // How many of the promised trains carry passengers.
    pub(super) fn passengers_ahead(&self) -> usize
        ensures { result ≡ how_many counted (kept self.now).promised }
    {
        self.promised
            .iter()
            .filter(|row| carries_passengers(row.class))
            .count()
    }
}
