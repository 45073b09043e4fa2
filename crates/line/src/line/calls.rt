// The nine calls. Each promises that it was performed as the rules say, and that no history makes it unsafe: proved from what it comes to.
// Block and end stand apart, as operators say them: any two numbers can be handed in, and only `locate` makes an end of a block of them.
ghost use Rattle.line.specs.Models.{as_answer, delivered_answer, faded_answer, model, repeated_answer, sent_answer, serial_answer, setting, shown_answer};
ghost use Rattle.line.specs.Wires.{Called, LineDelivered};
ghost use Rattle.rules.specs.Laws.{Performed};
ghost use Rattle.rules.specs.declared.calls.Call.TheVariants.{Arrive, Ask, Deliver, Enter, Fade, Present, Repeat, Show, Withdraw};
ghost use Rattle.std.specs.Prelude.{◌≡◌, false, is_ok, Ok};

use super::Line;
use book::RuleBook;
use form::Signed;
use rules::{Delivered, Permission, Sent};
use slip::{Fault, SlipKind};
use wire::Wire;

impl<'w, W: Wire, B: RuleBook> Line<'w, W, B> {
    // Asks the other end for the block, for a train: the serial of the asking.
    pub fn ask(&mut self, block: u32, end: u32, train: u32, class: char) -> Result<u32, Fault>
        ensures { Called (Ask block end train class) self.old (as_answer serial_answer result) self.new }
    {
        self.asked(block, end, train, class)
    }

    // Takes an asking back.
    pub fn withdraw(&mut self, block: u32, end: u32) -> Result<Sent, Fault>
        ensures { Called (Withdraw block end) self.old (as_answer sent_answer result) self.new }
    {
        self.withdrawn(block, end)
    }

    // Shows at the signal what is held.
    pub fn show(&mut self, block: u32, end: u32) -> Result<Permission, Fault>
        ensures { Called (Show block end) self.old (as_answer shown_answer result) self.new }
    {
        self.shown(block, end)
    }

    // Reports that a train has passed the signal.
    pub fn enter(&mut self, block: u32, end: u32, train: u32) -> Result<Sent, Fault>
        ensures { Called (Enter block end train) self.old (as_answer sent_answer result) self.new }
    {
        self.entered(block, end, train)
    }

    // Lets a train pass a signal at Stop by Form A, which is used up even when it is turned away.
    pub fn present(&mut self, form: Signed) -> Result<Sent, Fault>
        ensures { Called (Present form.paper.block form.paper.end form.paper.serial form.paper.train) self.old (as_answer sent_answer result) self.new }
    {
        self.presented(form.hand_in())
    }

    // Reports that a train has arrived.
    pub fn arrive(&mut self, block: u32, end: u32, train: u32) -> Result<Sent, Fault>
        ensures { Called (Arrive block end train) self.old (as_answer sent_answer result) self.new }
    {
        self.arrived(block, end, train)
    }

    // Puts again what the row of a train stands for: the kind of slip.
    pub fn repeat(&mut self, block: u32, end: u32, train: u32) -> Result<SlipKind, Fault>
        ensures { Called (Repeat block end train) self.old (as_answer repeated_answer result) self.new }
    {
        self.repeated(block, end, train)
    }

    // Takes a slip from the wire and hands it to its end. The wire chooses, so that its clauses stand one by one, and so do those of a fade.
    pub fn deliver(&mut self) -> Result<Delivered, Fault>
        ensures performed { Performed (setting self.old) Deliver (model self.old) (as_answer delivered_answer result) (model self.new) }
        ensures refused { is_ok result ≡ false → self.new.wire.now ≡ self.old.wire.now }
        ensures handled { LineDelivered self.old (as_answer delivered_answer result) self.new }
        ensures lender { self.new.wire.ghost_name ≡ self.old.wire.ghost_name }
    {
        self.take_one()
    }

    // Has the wire fade.
    pub fn fade(&mut self)
        ensures performed { Performed (setting self.old) Fade (model self.old) (as_answer faded_answer (Ok tt)) (model self.new) }
        ensures faded { W.fades self.old.wire.now self.new.wire.now }
        ensures lender { self.new.wire.ghost_name ≡ self.old.wire.ghost_name }
    {
        self.fade_one()
    }
}
