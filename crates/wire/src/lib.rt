// What a wire means: telegraph and radio stand behind this one interface.
#![tactic(auto)]

ghost use Rattle.std.specs.Prelude.{◌≡◌, ℕ, true, false, List, is_some, is_ok, Option as Maybe};
ghost use Rattle.slip.specs.declared.paper.Slip.{Slip as Paper};
ghost use Rattle.wire.specs.Waiting.{Formed, LawfulLoses, LawfulPicks, full_wire, put_after, put_answer};

use slip::{Cause, Fault, Slip};

// The refusal of a full wire, with the slips that wait: named here for all wires.
pub fn full(waiting: u32) -> Fault
    ensures { result ≡ full_wire waiting }
{
    Cause::WireFull.at(waiting)
}

// A list of waiting slips and a room. It may keep their order or not, and lose or repeat slips, as its own choice allows.
pub trait Wire {
    // the slips that wait, oldest first
    ghost waiting: { Self → List Paper };

    // how many may wait; it never changes
    ghost room: { Self → ℕ };

    // all that waits is in form
    ghost formed: { (w : Self) → Formed (waiting w) };

    // what a take answers and leaves, of what waits
    ghost picks: { List Paper → Maybe Paper → List Paper → Type 0 };

    // however it picks, it takes one that waits, or none where nothing does
    ghost picking: { LawfulPicks picks };

    // what a fade leaves, of what waits
    ghost loses: { List Paper → List Paper → Type 0 };

    // however it loses, it loses one at most
    ghost losing: { LawfulLoses loses };

    // what a put that takes the slip in, a take and a fade do, in the wire's own words
    ghost puts: { Self → Paper → Self → Type 0 };

    ghost takes: { Self → Maybe Paper → Self → Type 0 };

    ghost fades: { Self → Self → Type 0 };

    // Each call says that the room stays, and a refused one that all does: facts of a call, which no type of a wire can hold.

    // Takes a slip in, behind those that wait, or refuses it and stays as it was.
    fn put(&mut self, slip: Slip) -> Result<(), Fault>
        ensures answer { result ≡ put_answer slip (waiting self.old) (room self.old) }
        ensures after { waiting self.new ≡ put_after slip (waiting self.old) (room self.old) }
        ensures size { room self.new ≡ room self.old }
        ensures refused { is_ok result ≡ false → self.new ≡ self.old }
        ensures own { is_ok result ≡ true → puts self.old slip self.new };

    // Hands out one of the slips that wait.
    fn take(&mut self) -> Option<Slip>
        ensures picked { picks (waiting self.old) result (waiting self.new) }
        ensures size { room self.new ≡ room self.old }
        ensures refused { is_some result ≡ false → self.new ≡ self.old }
        ensures own { takes self.old result self.new };

    // Lets time pass, in which a slip may be lost.
    fn fade(&mut self)
        ensures lost { loses (waiting self.old) (waiting self.new) }
        ensures size { room self.new ≡ room self.old }
        ensures own { fades self.old self.new };
}
