// Why a call is turned away.
ghost use Rattle.slip.specs.Causes.{cause_layer, cause_number, fault_text, known_at, layer_number};
ghost use Rattle.std.specs.Prelude.{◌≡◌, Some};

use crate::track::NamesNothing;
use std::fmt;

// Who finds a fault.
#[derive(Clone, Copy, PartialEq, Eq, Debug)]
pub enum Layer {
    Line,
    Station,
    Wire,
    Sheet,
}

// The causes, in the order in which they are looked for: docs/REFUSALS.md lists the calls of each.
#[derive(Clone, Copy, PartialEq, Eq, Debug)]
pub enum Cause {
    // there is no such block, end, train or class, or a slip is out of form
    Unknown,
    // the end has given permissions that last
    HasPromised,
    // the newest train that was asked for is not in yet
    RowOpen,
    RowsFull,
    TrainHasRow,
    SerialsUsedUp,
    NoSuchRow,
    OtherTrain,
    SignalAtStop,
    NotReported,
    WireFull,
    NothingWaits,
    // of a line of a sheet
    Unreadable,
}

// The layer that finds a fault makes this value, and every layer above hands it on as it is.
#[derive(Clone, Copy, PartialEq, Eq, Debug)]
pub struct Fault {
    pub cause: Cause,
    // where: an argument's or a field's position from 1, a station's place, the slips that wait, or a column
    pub place: u32,
}

impl Cause {
    // Who finds it.
    pub fn layer(self) -> Layer
        ensures { result ≡ cause_layer self }
    {
        match self {
            Cause::Unknown => Layer::Line,
            Cause::HasPromised
            | Cause::RowOpen
            | Cause::RowsFull
            | Cause::TrainHasRow
            | Cause::SerialsUsedUp
            | Cause::NoSuchRow
            | Cause::OtherTrain
            | Cause::SignalAtStop
            | Cause::NotReported => Layer::Station,
            Cause::WireFull | Cause::NothingWaits => Layer::Wire,
            Cause::Unreadable => Layer::Sheet,
        }
    }

    // The fault of this cause at a place.
    pub fn at(self, place: u32) -> Fault
        ensures { result ≡ record { cause = self; place = place } }
    {
        Fault { cause: self, place }
    }
}

// What the field or the argument at this position names, or its refusal.
pub fn known<T>(position: u32, named: Result<T, NamesNothing>) -> Result<T, Fault>
    ensures { result ≡ known_at position named }
{
    named.map_err(|_| Cause::Unknown.at(position))
}

impl From<Layer> for u8 {
    ghost from_gives = { λ layer number. number ≡ layer_number layer };

    fn from(layer: Layer) -> u8 {
        match layer {
            Layer::Line => 1,
            Layer::Station => 2,
            Layer::Wire => 3,
            Layer::Sheet => 4,
        }
    }
}

impl From<Cause> for u8 {
    ghost from_gives = { λ cause number. number ≡ cause_number cause };

    fn from(cause: Cause) -> u8 {
        match cause {
            Cause::Unknown => 1,
            Cause::HasPromised => 2,
            Cause::RowOpen => 3,
            Cause::RowsFull => 4,
            Cause::TrainHasRow => 5,
            Cause::SerialsUsedUp => 6,
            Cause::NoSuchRow => 7,
            Cause::OtherTrain => 8,
            Cause::SignalAtStop => 9,
            Cause::NotReported => 10,
            Cause::WireFull => 11,
            Cause::NothingWaits => 12,
            Cause::Unreadable => 13,
        }
    }
}

impl fmt::Display for Fault {
    ghost output = { λ fault. Some (fault_text fault) };

    fn fmt<W: fmt::Write>(&self, f: &mut fmt::Formatter<W>) -> fmt::Result {
        let number = u8::from(self.cause);
        let layer = u8::from(self.cause.layer());
        let place = self.place;
        write!(f, "number {number}, layer {layer}, place {place}")
    }
}
