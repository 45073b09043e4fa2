// The report's line for a line of a sheet.
ghost use Rattle.sheet.specs.Report.{line_text, numbered};
ghost use Rattle.std.specs.Prelude.{◌≡◌, Some};

use rules::Answer;
use slip::Fault;
use std::fmt;

// What is printed of a line: its number, and what it was answered.
#[derive(Clone, Copy)]
pub struct Entry {
    pub line: usize,
    pub answer: Result<u32, Fault>,
}

impl Entry {
    // The entry for a line that was answered so: an answer is printed by its number.
    pub fn new(line: usize, answer: Result<Answer, Fault>) -> Entry
        ensures { result ≡ record { line = line; answer = numbered answer } }
    {
        Entry {
            line,
            answer: answer.map(u32::from),
        }
    }
}

impl fmt::Display for Entry {
    ghost output = { λ entry. Some (line_text entry.line entry.answer) };

    fn fmt<W: fmt::Write>(&self, f: &mut fmt::Formatter<W>) -> fmt::Result {
        let line = self.line;
        match self.answer {
            Ok(value) => write!(f, "{line} ok {value}\n"),
            Err(fault) => {
                let number = u8::from(fault.cause);
                let layer = u8::from(fault.cause.layer());
                let place = fault.place;
                write!(f, "{line} no {number} {layer} {place}\n")
            }
        }
    }
}
