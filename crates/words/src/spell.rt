// What one word says: a call's name, a number, an end or a class letter.
ghost use Rattle.std.specs.Prelude.{◌≡◌, ℕ, List, Option};
ghost use Rattle.words.specs.Spelling.{end_of, letter_of, name_of, number_of};

use crate::command::Name;
use slip::End;

// What a word can say: a value that its bytes spell.
pub trait Spelled {
    // what these bytes say
    ghost said: { List ℕ → Option Self };

    fn spelled(text: &[u8]) -> Option<Self>
        ensures { result ≡ said text.now };
}

impl Spelled for Name {
    ghost said = { name_of };

    fn spelled(text: &[u8]) -> Option<Self> {
        match text {
            b"ask" => Some(Name::Ask),
            b"withdraw" => Some(Name::Withdraw),
            b"show" => Some(Name::Show),
            b"enter" => Some(Name::Enter),
            b"form" => Some(Name::Form),
            b"arrive" => Some(Name::Arrive),
            b"repeat" => Some(Name::Repeat),
            b"deliver" => Some(Name::Deliver),
            b"fade" => Some(Name::Fade),
            _ => None,
        }
    }
}

// At most five digits, where a zero leads only if it stands alone.
impl Spelled for u32 {
    ghost said = { number_of };

    fn spelled(text: &[u8]) -> Option<Self> {
        if text.len() > 5 || matches!(text, [] | [b'0', _, ..]) {
            return None;
        }
        // digit by digit: `str::parse` proves too, but took more instructions than reading did before; `try_fold` would owe that no product overflows at any number
        let mut n = 0;
        for b in text {
            n = 10 * n + char::from(*b).to_digit(10)?;
        }
        Some(n)
    }
}

impl Spelled for End {
    ghost said = { end_of };

    fn spelled(text: &[u8]) -> Option<Self> {
        match text {
            b"w" => Some(End::West),
            b"e" => Some(End::East),
            _ => None,
        }
    }
}

// A single capital, whether or not a class goes by it.
impl Spelled for char {
    ghost said = { letter_of };

    fn spelled(text: &[u8]) -> Option<Self> {
        match text {
            [b @ b'A'..=b'Z'] => Some(char::from(*b)),
            _ => None,
        }
    }
}
