// What the calls answer, and the number of each answer.
ghost use Rattle.rules.specs.Numbers.{answer_number, delivered_number, ending_number, permission_number, sent_number};
ghost use Rattle.std.specs.Prelude.{◌≡◌};

use crate::rows::Permission;
use slip::SlipKind;

// Whether the wire took the slip that a call sent.
#[derive(Clone, Copy, PartialEq, Eq, Debug)]
pub enum Sent {
    Taken,
    NotTaken,
}

// How the hearing of a slip ended.
#[derive(Clone, Copy, PartialEq, Eq, Debug)]
pub enum Ending {
    Ignored,
    Found,
    Replied,
    ReplyNotTaken,
}

// What a delivery answers: the kind of slip, and how its hearing ended.
#[derive(Clone, Copy)]
pub struct Delivered {
    pub kind: SlipKind,
    pub ending: Ending,
}

// What a call that was performed answers.
#[derive(Clone, Copy)]
pub enum Answer {
    // of an asking: its serial
    Serial(u32),
    Sent(Sent),
    // what the signal shows now
    Shown(Permission),
    // the kind of slip that was put again
    Repeated(SlipKind),
    Delivered(Delivered),
    Faded,
}

impl From<Permission> for u32 {
    ghost from_gives = { λ permission number. number ≡ permission_number permission };

    fn from(permission: Permission) -> u32 {
        match permission {
            Permission::Clear => 1,
            Permission::Permissive => 2,
        }
    }
}

impl From<Sent> for u32 {
    ghost from_gives = { λ sent number. number ≡ sent_number sent };

    fn from(sent: Sent) -> u32 {
        match sent {
            Sent::NotTaken => 0,
            Sent::Taken => 1,
        }
    }
}

impl From<Ending> for u32 {
    ghost from_gives = { λ ending number. number ≡ ending_number ending };

    fn from(ending: Ending) -> u32 {
        match ending {
            Ending::Ignored => 0,
            Ending::Found => 1,
            Ending::Replied => 2,
            Ending::ReplyNotTaken => 3,
        }
    }
}

impl From<Delivered> for u32 {
    ghost from_gives = { λ delivered number. number ≡ delivered_number delivered };

    fn from(delivered: Delivered) -> u32 {
        10 * u32::from(delivered.kind) + u32::from(delivered.ending)
    }
}

impl From<Answer> for u32 {
    ghost from_gives = { λ answer number. number ≡ answer_number answer };

    fn from(answer: Answer) -> u32 {
        match answer {
            Answer::Serial(serial) => serial,
            Answer::Sent(sent) => u32::from(sent),
            Answer::Shown(permission) => u32::from(permission),
            Answer::Repeated(kind) => u32::from(kind),
            Answer::Delivered(delivered) => u32::from(delivered),
            Answer::Faded => 0,
        }
    }
}
