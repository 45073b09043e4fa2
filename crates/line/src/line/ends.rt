// Finding the end of a line that a call or a slip names.
ghost use Rattle.std.specs.Prelude.{◌≡◌, ◌<◌, length, IfOk};
ghost use Rattle.line.specs.Models.{ends_of};
ghost use Rattle.line.specs.Sites.{HasBlock, end_named};
ghost use Rattle.rules.specs.Lines.{blocks, located, site};

use super::Line;
use crate::site::Site;
use book::RuleBook;
use slip::{Cause, End, Fault, known};
use wire::Wire;

impl<'w, W: Wire, B: RuleBook> Line<'w, W, B> {
    // The block of this number, if the line has one.
    pub(super) fn block(&self, number: u32) -> Option<u8>
        ensures { HasBlock (ends_of self.now) number result }
    {
        if number as usize >= self.ends.len() / 2 {
            return None;
        }
        Some(number as u8)
    }

    // The end that a call names, or which of its arguments is bad.
    pub(super) fn locate(&self, block: u32, end: u32) -> Result<Site, Fault>
        ensures value { end_named result ≡ located (blocks (ends_of self.now)) block end }
        ensures within { IfOk result (λ s. (s.block ≡ block) × (site s.block s.end < length (ends_of self.now))) }
    {
        let block = self.block(block).ok_or(Cause::Unknown.at(1))?;
        let end = known(2, End::try_from(end))?;
        Ok(Site { block, end })
    }
}
