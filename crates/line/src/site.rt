// One end of a block of a line: where it stands, and the slips that it sends.
ghost use Rattle.rules.specs.Lines.{site, slip_from};
ghost use Rattle.std.specs.Prelude.{◌≡◌, ◌<◌};

use rules::Word;
use slip::{End, Slip};

// No line has more than 15 blocks.
#[derive(Clone, Copy)]
pub(crate) struct Site {
    pub(crate) block: u8,
    pub(crate) end: End,
    ghost small: { block < 15 },
}

impl Site {
    // Its place among the ends of a line, which a station's refusals name.
    pub(crate) fn place(self) -> u32
        ensures { result ≡ site self.block self.end }
    {
        2 * u32::from(self.block) + u32::from(self.end)
    }

    // The same as an index.
    pub(crate) fn index(self) -> usize
        ensures { result ≡ site self.block self.end }
    {
        self.place() as usize
    }

    // The slip by which it says a word to the other end of its block.
    pub(crate) fn slip(self, word: Word) -> Slip
        ensures { result ≡ slip_from self.block self.end word }
    {
        Slip {
            block: self.block,
            to: self.end.other(),
            message: word.message,
            serial: word.serial,
        }
    }
}
