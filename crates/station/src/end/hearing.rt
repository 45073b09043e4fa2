// What an end does on a slip that it hears: the newest row's state and the slip together decide.
ghost use Rattle.std.specs.Prelude.{◌≡◌, ◌<◌, true, map, length};
ghost use Rattle.rules.specs.Ends.{own_in, promise_of, with_promised};
ghost use Rattle.rules.specs.Hearing.{admitted, against_own, hears, marked, out_of, promising, reported_of, wanted_of, withdraw_heard};
ghost use Rattle.rules.specs.Lists.{find};
ghost use Rattle.station.specs.Records.{kept};

use super::{Asking, Station};
use book::RuleBook;
use rules::{Heard, Permission, RowState, Word};
use slip::{Class, Message};

impl Station {
    // Promises the block to a train, and gives it.
    fn promise(&mut self, asking: Asking, permission: Permission) -> Heard
        requires { length (kept self.old).promised < 4 }
        ensures { (result, kept self.new) ≡ promising asking.serial asking.train asking.class permission (kept self.old) }
    {
        self.promised
            .push_reserved(asking.into_promised_row(permission));
        self.heard = asking.serial;
        Heard::Reply(permission.into())
    }

    // Whether the book lets a train in behind the promised ones; at its limit the block is full, and it need not be asked.
    #[tactic(auto, using(crate::proofs::Rows::how_many_few))]
    fn may_follow<B: RuleBook>(&self, book: &B, class: Class) -> bool
        ensures value { result ≡ admitted B.book class (kept self.now).promised }
        ensures space { result ≡ true → length (kept self.now).promised < 4 }
    {
        let ahead = self.promised.len();
        if ahead >= usize::from(B::LIMIT) {
            return false;
        }
        let passengers = self.passengers_ahead();
        book.admit(char::from(class), ahead as u32, passengers as u32)
    }

    // A WANTED that was not heard before.
    fn hear_new<B: RuleBook>(&mut self, book: &B, asking: Asking) -> Heard
        ensures { (result, kept self.new) ≡ against_own B.book asking.serial asking.train asking.class (kept self.old) (kept self.old).own }
    {
        if self.own.is_empty() && self.promised.is_empty() {
            return self.promise(asking, Permission::Clear);
        }
        if self.own.is_empty() && self.may_follow(book, asking.class) {
            return self.promise(asking, Permission::Permissive);
        }
        self.heard = asking.serial;
        Heard::Reply(Message::NotClear)
    }

    fn hear_wanted<B: RuleBook>(&mut self, book: &B, asking: Asking) -> Heard
        ensures { (result, kept self.new) ≡ wanted_of B.book asking.serial asking.train asking.class (kept self.old) (find (promise_of asking.serial) (kept self.old).promised) }
    {
        if let Some(row) = self.promised_row(asking.serial) {
            return Heard::Reply(row.permission.into());
        }
        if asking.serial <= self.heard {
            return Heard::Reply(Message::NotClear);
        }
        self.hear_new(book, asking)
    }

    // Marks the promised row of this serial: its train's entry was reported.
    fn mark(&mut self, serial: u32)
        ensures { kept self.new ≡ with_promised (kept self.old) (map (marked serial) (kept self.old).promised) (kept self.old).heard }
    {
        for row in self.promised.iter_mut() {
            if row.serial == serial {
                row.reported = true;
            }
        }
    }

    fn hear_entered(&mut self, serial: u32) -> Heard
        ensures { (result, kept self.new) ≡ reported_of serial (kept self.old) (find (promise_of serial) (kept self.old).promised) }
    {
        if self.promised_row(serial).is_none() {
            return Heard::Reply(Message::Out);
        }
        self.mark(serial);
        Heard::Found
    }

    fn hear_withdraw(&mut self, serial: u32) -> Heard
        ensures { (result, kept self.new) ≡ withdraw_heard serial (kept self.old) }
    {
        self.heard = self.heard.max(serial);
        if let Some(i) = self.place_promised(serial) {
            self.promised.remove(i);
        }
        Heard::Reply(Message::Released)
    }

    fn hear_out(&mut self, serial: u32) -> Heard
        ensures { (result, kept self.new) ≡ out_of serial (kept self.old) (find (own_in serial) (kept self.old).own) }
    {
        let Some(i) = self.place_in(serial) else {
            return Heard::Ignored;
        };
        self.own.remove(i);
        Heard::Found
    }

    // Hears what a slip says: what becomes of it, and what is kept then.
    pub fn hear<B: RuleBook>(&mut self, book: &B, word: Word) -> Heard
        ensures { (result, kept self.new) ≡ hears B.book word.serial word.message (kept self.old) }
    {
        let Word { message, serial } = word;
        match message {
            Message::Wanted { train, class } => {
                return self.hear_wanted(
                    book,
                    Asking {
                        serial,
                        train,
                        class,
                    },
                );
            }
            Message::Entered => return self.hear_entered(serial),
            Message::Out => return self.hear_out(serial),
            Message::Withdraw => return self.hear_withdraw(serial),
            _ => {}
        }
        let Some(row) = self.newest_row() else {
            return Heard::Ignored;
        };
        if row.serial != serial {
            return Heard::Ignored;
        }
        match (row.state, message) {
            (RowState::Asking, Message::Clear) => {
                self.renew(row, RowState::Held(Permission::Clear));
                Heard::Found
            }
            (RowState::Asking, Message::Permissive) => {
                self.renew(row, RowState::Held(Permission::Permissive));
                Heard::Found
            }
            (RowState::Asking, Message::NotClear) | (RowState::Withdrawing, Message::Released) => {
                self.own.pop();
                Heard::Found
            }
            _ => Heard::Ignored,
        }
    }
}
