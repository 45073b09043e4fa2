// An asking for the block, and the row that it becomes at either end.
ghost use Rattle.rules.specs.Hearing.{new_promise};
ghost use Rattle.rules.specs.Moves.{new_row};
ghost use Rattle.std.specs.Prelude.{◌≡◌};

use rules::{OwnRow, Permission, PromisedRow, RowState};
use slip::{Class, Train};

// Which asking it is, and for which train. The rows name the three themselves, since the rules and the law speak of a row's serial, train and class.
#[derive(Clone, Copy)]
pub struct Asking {
    pub serial: u32,
    pub train: Train,
    pub class: Class,
}

impl Asking {
    // The row of the end that asks.
    pub(super) fn into_own_row(self) -> OwnRow
        ensures { result ≡ new_row self.serial self.train self.class }
    {
        OwnRow {
            serial: self.serial,
            train: self.train,
            class: self.class,
            state: RowState::Asking,
        }
    }

    // The row of the end that gives it.
    pub(super) fn into_promised_row(self, permission: Permission) -> PromisedRow
        ensures { result ≡ new_promise self.serial self.train self.class permission }
    {
        PromisedRow {
            serial: self.serial,
            train: self.train,
            class: self.class,
            permission,
            reported: false,
        }
    }
}
