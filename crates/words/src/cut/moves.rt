// Taking the words of a line one after the other.
ghost use Rattle.std.specs.Iterator.{at_most};
ghost use Rattle.std.specs.Option.{option_map};
ghost use Rattle.std.specs.Prelude.{◌≡◌};
ghost use Rattle.words.specs.Room.{room};
ghost use Rattle.words.specs.Words.{left_of, next_word, piece_of, whole};

use crate::cut::{Word, Words};
use lines::before;

impl<'a> Words<'a> {
    pub fn new(line: &'a [u8]) -> Words<'a>
        ensures { left_of result ≡ whole line.now }
    {
        Words {
            rest: Some(line),
            column: 1,
        }
    }

    // Where the next word stands; past the last, one past the line's end.
    pub fn column(&self) -> usize
        ensures { result ≡ (left_of self.now).column }
    {
        self.column
    }
}

// Its words one after the other, each as far as the next single space.
impl<'a> Iterator for Words<'a> {
    type Item = Word<'a>;

    ghost next_gives = { λ l word k. (option_map piece_of word, left_of k) ≡ next_word (left_of l) };

    ghost remaining = { λ l. at_most (room (left_of l).rest) };

    fn next(&mut self) -> Option<Word<'a>> {
        let Words { rest, column } = *self;
        let text = rest?;
        let n = before(text, b' ');
        if n < text.len() {
            *self = Words {
                rest: Some(&text[n + 1..]),
                column: column + n + 1,
            };
        } else {
            *self = Words {
                rest: None,
                column: column + n,
            };
        }
        Some(Word {
            text: &text[..n],
            column,
        })
    }
}
