// Taking slips from a line's wire and handing them to their ends. Here a call leaves the wire a choice, so that its clauses stand one by one.
ghost use Rattle.std.specs.Prelude.{◌≡◌, ◌<◌, false, is_ok, Some, None};
ghost use Rattle.line.specs.Models.{as_answer, delivered_answer, model, result_of};
ghost use Rattle.line.specs.Wires.{LineDelivered, Lent};
ghost use Rattle.rules.specs.Lines.{deliver_outcome, delivered_as, fade_outcome, nothing_waits, replying};
ghost use Rattle.rules.specs.Runs.{Choice};

use super::Line;
use crate::site::Site;
use book::RuleBook;
use rules::{Delivered, Ending, Heard, Sent, Word};
use slip::{Cause, Fault, Slip};
use wire::Wire;

impl<'w, W: Wire, B: RuleBook> Line<'w, W, B> {
    // Sends the reply to a slip, if one is due.
    fn reply(&mut self, here: Site, slip: Slip, heard: Heard) -> Ending
        requires { (here.block ≡ slip.block) × (here.end ≡ slip.to) }
        ensures value { (delivered_as slip result, model self.new) ≡ result_of (replying (model self.old) slip heard) }
        ensures lent { Lent self.old self.new }
    {
        match heard {
            Heard::Ignored => Ending::Ignored,
            Heard::Found => Ending::Found,
            Heard::Reply(message) => {
                let serial = slip.serial;
                match self.send(here.slip(Word { message, serial })) {
                    Sent::Taken => Ending::Replied,
                    Sent::NotTaken => Ending::ReplyNotTaken,
                }
            }
        }
    }

    // Hands a slip that was taken to its end, if the line has it.
    fn hand_over(&mut self, slip: Slip) -> Ending
        ensures value { (delivered_as slip result, model self.new) ≡ result_of (deliver_outcome B.book (model self.old) (W.waiting self.old.wire.now) (Some slip)) }
        ensures lent { Lent self.old self.new }
    {
        let Some(block) = self.block(u32::from(slip.block)) else {
            return Ending::Ignored;
        };
        let here = Site {
            block,
            end: slip.to,
        };
        let word = Word {
            message: slip.message,
            serial: slip.serial,
        };
        let heard = self.ends[here.index()].hear(&self.book, word);
        self.reply(here, slip, heard)
    }

    // Takes a slip and hands it to its end; which slip, the wire chooses.
    pub(super) fn take_one(&mut self) -> Result<Delivered, Fault>
        ensures value { (choice : Choice) × W.picks (W.waiting self.old.wire.now) choice.taken choice.left × ((as_answer delivered_answer result, model self.new) ≡ result_of (deliver_outcome B.book (model self.old) choice.left choice.taken)) }
        ensures refused { is_ok result ≡ false → self.new.wire.now ≡ self.old.wire.now }
        ensures handled { LineDelivered self.old (as_answer delivered_answer result) self.new }
        ensures lender { self.new.wire.ghost_name ≡ self.old.wire.ghost_name }
    {
        let Some(slip) = self.wire.take() else {
            return Err(Cause::NothingWaits.at(0));
        };
        let ending = self.hand_over(slip);
        Ok(Delivered {
            kind: slip.message.kind(),
            ending,
        })
    }

    // Has the wire fade; what is lost, the wire chooses.
    pub(super) fn fade_one(&mut self)
        ensures value { (choice : Choice) × (choice.taken ≡ None) × W.loses (W.waiting self.old.wire.now) choice.left × (model self.new ≡ (fade_outcome (model self.old) choice.left).after) }
        ensures faded { W.fades self.old.wire.now self.new.wire.now }
        ensures lender { self.new.wire.ghost_name ≡ self.old.wire.ghost_name }
    {
        self.wire.fade();
    }
}
