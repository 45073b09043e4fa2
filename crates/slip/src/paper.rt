// A slip as it is written: for which block and end, what it says, and of which asking.
ghost use Rattle.slip.specs.Numbers.{kind_number, kind_of, message_kind, named};
ghost use Rattle.slip.specs.Words.{kind_word, slip_text};
ghost use Rattle.std.specs.Prelude.{◌≡◌, Some};

use crate::track::{Class, End, NamesNothing, Train};
use std::fmt;

// The eight kinds of slip.
#[derive(Clone, Copy, PartialEq, Eq, Debug)]
pub enum SlipKind {
    Wanted,
    Clear,
    Permissive,
    NotClear,
    Entered,
    Out,
    Withdraw,
    Released,
}

impl From<SlipKind> for u8 {
    ghost from_gives = { λ kind number. number ≡ kind_number kind };

    fn from(kind: SlipKind) -> u8 {
        match kind {
            SlipKind::Wanted => 1,
            SlipKind::Clear => 2,
            SlipKind::Permissive => 3,
            SlipKind::NotClear => 4,
            SlipKind::Entered => 5,
            SlipKind::Out => 6,
            SlipKind::Withdraw => 7,
            SlipKind::Released => 8,
        }
    }
}

impl From<SlipKind> for u32 {
    ghost from_gives = { λ kind number. number ≡ kind_number kind };

    fn from(kind: SlipKind) -> u32 {
        u32::from(u8::from(kind))
    }
}

impl TryFrom<u8> for SlipKind {
    type Error = NamesNothing;

    ghost try_from_gives = { λ number kind. kind ≡ named (kind_of number) };

    fn try_from(number: u8) -> Result<SlipKind, NamesNothing> {
        match number {
            1 => Ok(SlipKind::Wanted),
            2 => Ok(SlipKind::Clear),
            3 => Ok(SlipKind::Permissive),
            4 => Ok(SlipKind::NotClear),
            5 => Ok(SlipKind::Entered),
            6 => Ok(SlipKind::Out),
            7 => Ok(SlipKind::Withdraw),
            8 => Ok(SlipKind::Released),
            _ => Err(NamesNothing),
        }
    }
}

impl fmt::Display for SlipKind {
    ghost output = { λ kind. Some (kind_word kind) };

    fn fmt<W: fmt::Write>(&self, f: &mut fmt::Formatter<W>) -> fmt::Result {
        f.write_str(match self {
            SlipKind::Wanted => "WANTED",
            SlipKind::Clear => "CLEAR",
            SlipKind::Permissive => "PERMISSIVE",
            SlipKind::NotClear => "NOT CLEAR",
            SlipKind::Entered => "ENTERED",
            SlipKind::Out => "OUT",
            SlipKind::Withdraw => "WITHDRAW",
            SlipKind::Released => "RELEASED",
        })
    }
}

// What a slip says. Only WANTED names a train and its class.
#[derive(Clone, Copy, PartialEq, Eq, Debug)]
pub enum Message {
    Wanted { train: Train, class: Class },
    Clear,
    Permissive,
    NotClear,
    Entered,
    Out,
    Withdraw,
    Released,
}

impl Message {
    // The kind of slip that says it.
    pub fn kind(self) -> SlipKind
        ensures { result ≡ message_kind self }
    {
        match self {
            Message::Wanted { .. } => SlipKind::Wanted,
            Message::Clear => SlipKind::Clear,
            Message::Permissive => SlipKind::Permissive,
            Message::NotClear => SlipKind::NotClear,
            Message::Entered => SlipKind::Entered,
            Message::Out => SlipKind::Out,
            Message::Withdraw => SlipKind::Withdraw,
            Message::Released => SlipKind::Released,
        }
    }
}

// A slip, in form or not: its block or its train may be out of range.
#[derive(Clone, Copy, PartialEq, Eq, Debug)]
pub struct Slip {
    pub block: u8,
    // the end that it goes to
    pub to: End,
    pub message: Message,
    // which asking it belongs to
    pub serial: u32,
}

// A slip in plain words.
impl fmt::Display for Slip {
    ghost output = { λ slip. Some (slip_text slip) };

    fn fmt<W: fmt::Write>(&self, f: &mut fmt::Formatter<W>) -> fmt::Result {
        let kind = self.message.kind();
        write!(f, "{kind}, block {}, to {}", self.block, self.to)?;
        if let Message::Wanted { train, class } = self.message {
            write!(f, ", train {train}, class {class}")?;
        }
        write!(f, ", serial {}", self.serial)
    }
}
