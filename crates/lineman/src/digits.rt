// A slip written on a line as hexadecimal digits, two to a byte.
ghost use Rattle.lineman.specs.Hex.{said_by, spelled};
ghost use Rattle.std.specs.Prelude.{◌≡◌};

use hex::FromHex;
use slip::{Cause, Fault, LENGTH, Slip, read};

// The bytes that a line spells, if they are as many as a slip has.
#[tactic(auto, using(crate::proofs::Spelling::spelled_same))]
fn slip_bytes(line: &[u8]) -> Option<[u8; LENGTH]>
    ensures { result ≡ spelled line.now }
{
    <[u8; LENGTH]>::from_hex(line).ok()
}

// The slip that a line says, or why it says none.
pub fn slip_on(line: &[u8]) -> Result<Slip, Fault>
    ensures { result ≡ said_by line.now }
{
    let bytes = slip_bytes(line).ok_or(Cause::Unknown.at(0))?;
    read(&bytes)
}
