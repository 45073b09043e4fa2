// What the calls at an end come to: each judges its arguments, takes its step at that end and does what its rule says.
// Four of them send what the step says. One function over a closure would say of its step what the four bodies show, in more words.
ghost use Rattle.line.specs.Models.{as_answer, model, repeated_answer, sent_answer, serial_answer, shown_answer};
ghost use Rattle.line.specs.Wires.{Became};
ghost use Rattle.rules.specs.Lines.{arrive_outcome, ask_outcome, enter_outcome, present_outcome, repeat_outcome, show_outcome, withdraw_outcome};

use super::Line;
use book::RuleBook;
use form::Paper;
use rules::{Permission, Sent};
use slip::{Class, Fault, SlipKind, Train, known};
use wire::Wire;

impl<'w, W: Wire, B: RuleBook> Line<'w, W, B> {
    pub(super) fn asked(
        &mut self,
        block: u32,
        end: u32,
        train: u32,
        class: char,
    ) -> Result<u32, Fault>
        ensures { Became (ask_outcome block end train class (model self.old)) self.old (as_answer serial_answer result) self.new }
    {
        let here = self.locate(block, end)?;
        let train = known(3, Train::try_from(train))?;
        let class = known(4, Class::try_from(class))?;
        self.ask_at(here, train, class)
    }

    pub(super) fn withdrawn(&mut self, block: u32, end: u32) -> Result<Sent, Fault>
        ensures { Became (withdraw_outcome block end (model self.old)) self.old (as_answer sent_answer result) self.new }
    {
        let here = self.locate(block, end)?;
        let word = self.ends[here.index()].withdraw(here.place())?;
        Ok(self.send(here.slip(word)))
    }

    pub(super) fn shown(&mut self, block: u32, end: u32) -> Result<Permission, Fault>
        ensures { Became (show_outcome block end (model self.old)) self.old (as_answer shown_answer result) self.new }
    {
        let here = self.locate(block, end)?;
        self.ends[here.index()].show(here.place())
    }

    pub(super) fn entered(&mut self, block: u32, end: u32, train: u32) -> Result<Sent, Fault>
        ensures { Became (enter_outcome block end train (model self.old)) self.old (as_answer sent_answer result) self.new }
    {
        let here = self.locate(block, end)?;
        let train = known(3, Train::try_from(train))?;
        let word = self.ends[here.index()].enter(here.place(), train)?;
        Ok(self.send(here.slip(word)))
    }

    pub(super) fn presented(&mut self, paper: Paper) -> Result<Sent, Fault>
        ensures { Became (present_outcome paper.block paper.end paper.serial paper.train (model self.old)) self.old (as_answer sent_answer result) self.new }
    {
        let here = self.locate(paper.block, paper.end)?;
        let train = known(4, Train::try_from(paper.train))?;
        let word = self.ends[here.index()].present(here.place(), paper.serial, train)?;
        Ok(self.send(here.slip(word)))
    }

    pub(super) fn arrived(&mut self, block: u32, end: u32, train: u32) -> Result<Sent, Fault>
        ensures { Became (arrive_outcome block end train (model self.old)) self.old (as_answer sent_answer result) self.new }
    {
        let here = self.locate(block, end)?;
        let train = known(3, Train::try_from(train))?;
        let word = self.ends[here.index()].arrive(here.place(), train)?;
        Ok(self.send(here.slip(word)))
    }

    pub(super) fn repeated(&mut self, block: u32, end: u32, train: u32) -> Result<SlipKind, Fault>
        ensures { Became (repeat_outcome block end train (model self.old)) self.old (as_answer repeated_answer result) self.new }
    {
        let here = self.locate(block, end)?;
        let train = known(3, Train::try_from(train))?;
        self.say_again_at(here, train)
    }
}
