// A slip's ten bytes, written into a lent buffer and read from one.
ghost use Rattle.std.specs.Prelude.{◌≡◌, ◌^◌, ◌<◌, true, ◌++◌, length, drop, is_ok, if◌then◌else◌};
ghost use Rattle.slip.specs.Bytes.{ReadsBack, Worked, WritesBack, bare as bare_of, class_byte, decode, encode, message_of, slip_of_lem, train_number_lem, wanted_of, written as written-into};

use crate::fault::{Cause, Fault, known};
use crate::form::{LAST_BLOCK, check_form};
use crate::paper::{Message, Slip, SlipKind};
use crate::track::{Class, End, Train};

// How many bytes a slip has.
pub const LENGTH: usize = 10;

fn class_letter(message: Message) -> u8
    ensures { result ≡ class_byte message }
{
    match message {
        Message::Wanted { class, .. } => class.into(),
        _ => 0,
    }
}

fn train_number(message: Message) -> u16
    ensures { result ≡ train_number_lem message }
{
    match message {
        Message::Wanted { train, .. } => train.number,
        _ => 0,
    }
}

// Writes a slip into the first ten bytes of `out`, and leaves the rest; a refusal writes nothing.
pub fn write(slip: &Slip, out: &mut [u8]) -> Result<(), Fault>
    ensures value { result ≡ written-into slip.now (length out.old) }
    ensures after { out.new ≡ (if is_ok result then encode slip.now ++ drop 10 out.old else out.old) }
    ensures fits { is_ok result ≡ true → slip.now.serial < 2 ^ 32 }
{
    if out.len() < LENGTH {
        return Err(Cause::Unknown.at(0));
    }
    check_form(slip)?;
    let train = train_number(slip.message).to_be_bytes();
    let serial = slip.serial.to_be_bytes();
    out[0] = slip.message.kind().into();
    out[1] = slip.block;
    out[2] = slip.to.into();
    out[3] = class_letter(slip.message);
    out[4] = train[0];
    out[5] = train[1];
    out[6] = serial[0];
    out[7] = serial[1];
    out[8] = serial[2];
    out[9] = serial[3];
    Ok(())
}

// What a slip says whose kind names no train: both fields are zero.
fn bare(message: Message, letter: u8, number: u16) -> Result<Message, Fault>
    ensures { result ≡ bare_of message letter number }
{
    if letter != 0 {
        return Err(Cause::Unknown.at(4));
    }
    if number != 0 {
        return Err(Cause::Unknown.at(5));
    }
    Ok(message)
}

fn wanted(letter: u8, number: u16) -> Result<Message, Fault>
    ensures { result ≡ wanted_of letter number }
{
    let class = known(4, Class::try_from(char::from(letter)))?;
    let train = known(5, Train::try_from(u32::from(number)))?;
    Ok(Message::Wanted { train, class })
}

// What a slip of this kind says, by its class byte and its train number.
fn message(kind: SlipKind, letter: u8, number: u16) -> Result<Message, Fault>
    ensures { result ≡ message_of kind letter number }
{
    match kind {
        SlipKind::Wanted => wanted(letter, number),
        SlipKind::Clear => bare(Message::Clear, letter, number),
        SlipKind::Permissive => bare(Message::Permissive, letter, number),
        SlipKind::NotClear => bare(Message::NotClear, letter, number),
        SlipKind::Entered => bare(Message::Entered, letter, number),
        SlipKind::Out => bare(Message::Out, letter, number),
        SlipKind::Withdraw => bare(Message::Withdraw, letter, number),
        SlipKind::Released => bare(Message::Released, letter, number),
    }
}

// Reads the other fields of a slip of this kind.
fn read_as(kind: SlipKind, bytes: &[u8]) -> Result<Slip, Fault>
    requires { length bytes.now ≡ 10 }
    ensures { result ≡ slip_of_lem bytes.now kind }
{
    let block = bytes[1];
    if block > LAST_BLOCK {
        return Err(Cause::Unknown.at(2));
    }
    let to = known(3, End::try_from(u32::from(bytes[2])))?;
    let number = u16::from_be_bytes([bytes[4], bytes[5]]);
    let message = message(kind, bytes[3], number)?;
    let serial = u32::from_be_bytes([bytes[6], bytes[7], bytes[8], bytes[9]]);
    Ok(Slip {
        block,
        to,
        message,
        serial,
    })
}

// Reads the slip that ten bytes say.
pub fn read(bytes: &[u8]) -> Result<Slip, Fault>
    ensures { result ≡ decode bytes.now }
{
    if bytes.len() != LENGTH {
        return Err(Cause::Unknown.at(0));
    }
    let kind = known(1, SlipKind::try_from(bytes[0]))?;
    read_as(kind, bytes)
}

// Writing and reading undo each other; and the worked slip's bytes.
pub fn round_trips()
    ensures back { ReadsBack }
    ensures forth { WritesBack }
    ensures worked { Worked }
{}
