// What one end of a block keeps, with memory reserved for all its rows.
ghost use Rattle.std.specs.Prelude.{◌≤◌, vec_len, vec_capacity};

use rules::{OwnRow, Permission, PromisedRow};

mod asking;
mod hearing;
mod moves;
mod rows;

pub use asking::Asking;

// Both lists are oldest first. That their serials rise, and the like, is no matter of this record but of a line's whole run.
// It has no model: a refused call leaves the whole record as it was, and a model would hide the memory of its lists.
#[derive(Drop)]
pub struct Station {
    own: Vec<OwnRow>,
    promised: Vec<PromisedRow>,
    used: u32,
    heard: u32,
    // what the signal shows; none at Stop
    signal: Option<Permission>,
    ghost own_few: { (vec_len own ≤ 4) × (4 ≤ vec_capacity own) },
    ghost promised_few: { (vec_len promised ≤ 4) × (4 ≤ vec_capacity promised) },
}
