// The rows that an end keeps, and what it says to the other end.
ghost use Rattle.rules.specs.Ends.{is_in_lem};
ghost use Rattle.rules.specs.Hearing.{giving};
ghost use Rattle.std.specs.Prelude.{◌≡◌};

use slip::{Class, Message, Train};

// Clear: the block is empty. Permissive: the train follows others.
#[derive(Clone, Copy, PartialEq, Eq, Debug)]
pub enum Permission {
    Clear,
    Permissive,
}

// The reply that gives it.
impl From<Permission> for Message {
    ghost from_gives = { λ permission message. message ≡ giving permission };

    fn from(permission: Permission) -> Message {
        match permission {
            Permission::Clear => Message::Clear,
            Permission::Permissive => Message::Permissive,
        }
    }
}

// How far a permission has come that was asked for. It has a kind while it is held or used.
#[derive(Clone, Copy, PartialEq, Eq, Debug)]
pub enum RowState {
    Asking,
    Held(Permission),
    In(Permission),
    Withdrawing,
}

// A permission that this end asked of the other.
#[derive(Clone, Copy)]
pub struct OwnRow {
    pub serial: u32,
    pub train: Train,
    pub class: Class,
    pub state: RowState,
}

// An own row that is held, and its kind.
#[derive(Clone, Copy)]
pub struct HeldRow {
    pub row: OwnRow,
    pub permission: Permission,
}

// A permission that this end gave to the other.
#[derive(Clone, Copy)]
pub struct PromisedRow {
    pub serial: u32,
    pub train: Train,
    pub class: Class,
    pub permission: Permission,
    // whether the train's entry was reported
    pub reported: bool,
}

// What an end says to the other, and of which asking: a slip but for its address.
#[derive(Clone, Copy)]
pub struct Word {
    pub message: Message,
    pub serial: u32,
}

// What became of a slip that was heard.
#[derive(Clone, Copy)]
pub enum Heard {
    // no row matched, and no reply is due
    Ignored,
    // a row matched, and no reply is due
    Found,
    Reply(Message),
}

impl RowState {
    // Whether its train is in the block.
    pub fn is_in(self) -> bool
        ensures { result ≡ is_in_lem self }
    {
        matches!(self, RowState::In(_))
    }
}
