// Opening a line over a wire, closing it, and writing Form A.
ghost use Rattle.line.specs.Models.{form_written, model};
ghost use Rattle.rules.specs.Lines.{written_form};
ghost use Rattle.std.specs.Prelude.{◌≡◌};

use super::Line;
use crate::making::Ends;
use book::RuleBook;
use form::{Paper, Written};
use slip::{Cause, Fault};
use wire::Wire;

impl<'w, W: Wire, B: RuleBook> Line<'w, W, B> {
    // A line over these ends, which borrows a wire, silent or not.
    pub fn new(ends: Ends, wire: &'w mut W, book: B) -> Line<'w, W, B>
        ensures model { model result ≡ record { ends = ends; waiting = W.waiting wire.old; room = W.room wire.old } }
        ensures wire { result.wire.now ≡ wire.old }
        ensures lender { result.wire.ghost_name ≡ wire.entry.ghost_name }
    {
        let Ends { stations } = ends;
        Line {
            ends: stations,
            wire,
            book,
        }
    }
}

impl<'w, W: Wire, B: RuleBook + Drop> Line<'w, W, B> {
    // Takes the line apart, and gives its wire back.
    pub fn close(self) -> &'w mut W
        ensures wire { result.now ≡ self.entry.wire.now }
        ensures lender { result.ghost_name ≡ self.entry.wire.ghost_name }
    {
        let Line { wire, .. } = self;
        wire
    }
}

impl<'w, W: Wire, B: RuleBook> Line<'w, W, B> {
    // Writes Form A: it copies the row that is held at an end.
    pub fn write_form(&self, block: u32, end: u32) -> Result<Written, Fault>
        ensures { form_written result ≡ written_form block end (model self.now) }
    {
        let here = self.locate(block, end)?;
        let held = self.ends[here.index()]
            .held()
            .ok_or(Cause::NoSuchRow.at(here.place()))?;
        Ok(Written::write(Paper {
            block,
            end: u32::from(here.end),
            serial: held.row.serial,
            train: u32::from(held.row.train.number),
        }))
    }
}
