// A line of a sheet, read as a call word by word, as far as the first word out of place.
ghost use Rattle.words.specs.Parted.{Parted};
ghost use Rattle.words.specs.Reading.{argued, ask_at, command_of, end_reached, field, unreadable_at};
ghost use Rattle.words.specs.Worked.{Worked};
ghost use Rattle.words.specs.Written.{ReadsWritten};
ghost use Rattle.words.specs.Words.{left_of};
ghost use Rattle.std.specs.Prelude.{◌≡◌};

use crate::command::{Command, Name};
use crate::cut::Words;
use crate::spell::Spelled;
use slip::{Cause, Fault};

// The refusal of a line for its word at this column. A fault's place has 32 bits, so it names a column beyond them by the last that it can.
fn unreadable(column: usize) -> Fault
    ensures { result ≡ unreadable_at column }
{
    Cause::Unreadable.at(u32::try_from(column).unwrap_or(u32::MAX))
}

impl<'a> Words<'a> {
    // What the next word says, which has to be there and to say something of this type.
    fn field<T: Spelled>(&mut self) -> Result<T, Fault>
        ensures { (result, left_of self.new) ≡ field T.said (left_of self.old) }
    {
        let word = self.next().ok_or(unreadable(self.column()))?;
        T::spelled(word.text).ok_or(unreadable(word.column))
    }

    // Asking takes a class, as no other call does.
    fn ask(&mut self) -> Result<Command, Fault>
        ensures { (result, left_of self.new) ≡ ask_at (left_of self.old) }
    {
        Ok(Command::Ask {
            block: self.field()?,
            end: self.field()?,
            train: self.field()?,
            class: self.field()?,
        })
    }

    // The call of this name, with the arguments that it takes.
    fn command(&mut self, name: Name) -> Result<Command, Fault>
        ensures { (result, left_of self.new) ≡ argued name (left_of self.old) }
    {
        Ok(match name {
            Name::Ask => self.ask()?,
            Name::Withdraw => Command::Withdraw {
                block: self.field()?,
                end: self.field()?,
            },
            Name::Show => Command::Show {
                block: self.field()?,
                end: self.field()?,
            },
            Name::Enter => Command::Enter {
                block: self.field()?,
                end: self.field()?,
                train: self.field()?,
            },
            Name::Form => Command::Form {
                block: self.field()?,
                end: self.field()?,
            },
            Name::Arrive => Command::Arrive {
                block: self.field()?,
                end: self.field()?,
                train: self.field()?,
            },
            Name::Repeat => Command::Repeat {
                block: self.field()?,
                end: self.field()?,
                train: self.field()?,
            },
            Name::Deliver => Command::Deliver,
            Name::Fade => Command::Fade,
        })
    }

    // A word after the last argument is out of place, even an empty one.
    fn nothing_more(&mut self) -> Result<(), Fault>
        ensures { (result, left_of self.new) ≡ end_reached (left_of self.old) }
    {
        match self.next() {
            Some(word) => Err(unreadable(word.column)),
            None => Ok(()),
        }
    }
}

// The call that a line asks for, the line without its line feed.
pub fn read_line(line: &[u8]) -> Result<Command, Fault>
    ensures { result ≡ command_of line.now }
{
    let mut words = Words::new(line);
    let name = words.field()?;
    let command = words.command(name)?;
    words.nothing_more()?;
    Ok(command)
}

// The words of a line are what single spaces part.
#[tactic(auto, using(crate::proofs::Parts::parted))]
pub fn words_parted()
    ensures { Parted }
{}

// A written call reads as itself, and only the line that it is written as reads as it; and worked lines.
#[tactic(auto, using(crate::proofs::Only::reads_written))]
pub fn reads_written()
    ensures written { ReadsWritten }
    ensures worked { Worked }
{}
