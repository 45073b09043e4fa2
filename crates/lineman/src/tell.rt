// What the lineman reads of a line.
ghost use Rattle.lineman.specs.Words.{line_words};
ghost use Rattle.std.specs.Prelude.{Some};

use slip::{Fault, Slip};
use std::fmt;

// What became of a line: the slip that was put, or why it was refused.
#[derive(Clone, Copy, PartialEq, Eq, Debug)]
pub struct LineReport {
    pub line: usize,
    pub answer: Result<Slip, Fault>,
}

impl fmt::Display for LineReport {
    ghost output = { λ report. Some (line_words report.line report.answer) };

    fn fmt<W: fmt::Write>(&self, f: &mut fmt::Formatter<W>) -> fmt::Result {
        match self.answer {
            Ok(slip) => write!(f, "line {}: put {slip}", self.line),
            Err(fault) => write!(f, "line {}: refused: {fault}", self.line),
        }
    }
}
