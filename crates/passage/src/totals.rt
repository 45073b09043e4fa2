// How a trial came out.
ghost use Rattle.passage.specs.Totals.{totals_words};
ghost use Rattle.std.specs.Prelude.{Some};

use std::fmt;

// How many slips were put, how many lines refused, how many slips taken, and whether each came as it was written.
#[derive(Clone, Copy, PartialEq, Eq, Debug)]
pub struct Totals {
    pub put: usize,
    pub refused: usize,
    pub taken: usize,
    pub faithful: bool,
}

impl fmt::Display for Totals {
    ghost output = { λ totals. Some (totals_words totals) };

    fn fmt<W: fmt::Write>(&self, f: &mut fmt::Formatter<W>) -> fmt::Result {
        let verdict = if self.faithful {
            "each came as it was written"
        } else {
            "not each came as it was written"
        };
        write!(
            f,
            "{} put, {} refused, {} taken: {verdict}",
            self.put, self.refused, self.taken
        )
    }
}
