// Rule books: whether a train may follow others into a block.
#![tactic(auto)]

ghost use Rattle.std.specs.Prelude.{◌≡◌, ℕ};
ghost use Rattle.book.specs.Books.{Book, Lawful, absolute_book, class_book, may_follow_lem};
ghost use Rattle.std.proofs.Common.{refl, rules};

// A rule book. Its answer is fixed by the three things it is asked with.
pub trait RuleBook {
    // the most trains that it lets into a block
    const LIMIT: u8;

    ghost LIMIT: { ℕ };

    // its limit, and what it answers
    ghost book: { Book };

    // Whether a train of this class may follow so many trains, so many of which carry passengers.
    fn admit(&self, class: char, ahead: u32, passengers: u32) -> bool
        ensures { result ≡ book.admits class ahead passengers };

    ghost limited: { book.limit ≡ LIMIT };

    ghost meaning: { Lawful book };
}

// One train in a block.
#[derive(Clone, Copy)]
pub struct AbsoluteBook;

impl RuleBook for AbsoluteBook {
    const LIMIT: u8 = 1;

    ghost LIMIT = { 1 };

    ghost book = { absolute_book };

    ghost limited = { refl };

    ghost meaning = { Prim.search rules };

    fn admit(&self, class: char, ahead: u32, passengers: u32) -> bool {
        false
    }
}

// Trains without passengers may follow each other, up to three.
#[derive(Clone, Copy)]
pub struct ClassBook;

fn follows(class: char) -> bool
    ensures { result ≡ may_follow_lem class }
{
    matches!(class, 'F' | 'W' | 'L')
}

impl RuleBook for ClassBook {
    const LIMIT: u8 = 3;

    ghost LIMIT = { 3 };

    ghost book = { class_book };

    ghost limited = { refl };

    ghost meaning = { Prim.search rules };

    fn admit(&self, class: char, ahead: u32, passengers: u32) -> bool {
        1 <= ahead && ahead <= 2 && passengers == 0 && follows(class)
    }
}
