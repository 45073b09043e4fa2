// Putting slips on a line's wire. That an end stands on the line is asked of a site here, since a site does not know its line.
ghost use Rattle.std.specs.Prelude.{◌≡◌, ◌<◌, length};
ghost use Rattle.line.specs.Models.{as_answer, ends_of, model, repeated_answer, serial_answer};
ghost use Rattle.line.specs.Wires.{Became, Lent};
ghost use Rattle.rules.specs.Lines.{asks, at_end, says_again, sent_by, site, then};
ghost use Rattle.rules.specs.Moves.{next_serial_lem, repeated};
ghost use Rattle.wire.specs.Waiting.{put_after, put_answer};

use super::Line;
use crate::site::Site;
use book::RuleBook;
use rules::{Sent, Word};
use slip::{Class, Fault, Message, Slip, SlipKind, Train};
use station::Asking;
use wire::Wire;

impl<'w, W: Wire, B: RuleBook> Line<'w, W, B> {
    // Puts a slip: whether the wire took it.
    pub(super) fn send(&mut self, slip: Slip) -> Sent
        ensures answer { result ≡ sent_by (put_answer slip (model self.old).waiting (model self.old).room) }
        ensures after { (model self.new).waiting ≡ put_after slip (model self.old).waiting (model self.old).room }
        ensures size { (model self.new).room ≡ (model self.old).room }
        ensures ends { self.new.ends ≡ self.old.ends }
        ensures lent { Lent self.old self.new }
    {
        match self.wire.put(slip) {
            Ok(()) => Sent::Taken,
            Err(_) => Sent::NotTaken,
        }
    }

    // Asks at an end: the row is noted only if the wire takes the slip.
    pub(super) fn ask_at(&mut self, here: Site, train: Train, class: Class) -> Result<u32, Fault>
        requires { site here.block here.end < length (ends_of self.old) }
        ensures { Became (then (model self.old) (next_serial_lem (site here.block here.end) train (at_end (ends_of self.old) here.block here.end)) (asks (model self.old) here.block here.end train class)) self.old (as_answer serial_answer result) self.new }
    {
        let serial = self.ends[here.index()].next_serial(here.place(), train)?;
        let message = Message::Wanted { train, class };
        self.wire.put(here.slip(Word { message, serial }))?;
        self.ends[here.index()].note_asking(Asking {
            serial,
            train,
            class,
        });
        Ok(serial)
    }

    // Says again what an end's row stands for, if the wire takes the slip.
    pub(super) fn say_again_at(&mut self, here: Site, train: Train) -> Result<SlipKind, Fault>
        requires { site here.block here.end < length (ends_of self.old) }
        ensures { Became (then (model self.old) (repeated (site here.block here.end) train (at_end (ends_of self.old) here.block here.end)) (says_again (model self.old) here.block here.end)) self.old (as_answer repeated_answer result) self.new }
    {
        let word = self.ends[here.index()].repeat(here.place(), train)?;
        self.wire.put(here.slip(word))?;
        Ok(word.message.kind())
    }
}
