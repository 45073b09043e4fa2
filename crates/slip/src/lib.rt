// Slips: what two ends of a block tell each other, when a slip is in form, and its ten bytes.
#![tactic(auto)]

mod bytes;
mod fault;
mod form;
mod paper;
mod track;

pub use bytes::{LENGTH, read, round_trips, write};
pub use fault::{Cause, Fault, Layer, known};
pub use form::check_form;
pub use paper::{Message, Slip, SlipKind};
pub use track::{Class, End, NamesNothing, Train};
