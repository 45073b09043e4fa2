// The lines of an input: parts of lent bytes, each ended by a line feed, which the last may lack.
#![tactic(auto)]

ghost use Rattle.std.specs.Prelude.{◌≡◌, ◌≤◌, length};
ghost use Rattle.std.specs.Iterator.{at_most};
ghost use Rattle.lines.specs.Cuts.{span};
ghost use Rattle.lines.specs.Lines.{TakesLine, rest_of};

// How many bytes stand before the first mark, or all where there is none.
pub fn before(text: &[u8], mark: u8) -> usize
    ensures value { result ≡ span mark text.now }
    ensures within { result ≤ length text.now }
{
    text.iter().position(|b| *b == mark).unwrap_or(text.len())
}

// The lines of an input one after the other, each without its line feed. It has no model, since it is `Copy` and lent bytes have a lifetime.
#[derive(Clone, Copy)]
pub struct Lines<'a> {
    rest: &'a [u8],
}

impl<'a> Lines<'a> {
    pub fn new(input: &'a [u8]) -> Lines<'a>
        ensures { rest_of result ≡ input.now }
    {
        Lines { rest: input }
    }
}

impl<'a> Iterator for Lines<'a> {
    type Item = &'a [u8];

    ghost next_gives = { λ s line t. TakesLine (rest_of s) line (rest_of t) };

    // each line has a byte at least, if only its line feed
    ghost remaining = { λ s. at_most (length (rest_of s)) };

    fn next(&mut self) -> Option<&'a [u8]> {
        let text = self.rest;
        if text.is_empty() {
            return None;
        }
        let n = before(text, b'\n');
        self.rest = text.get(n + 1..).unwrap_or(&[]);
        Some(&text[..n])
    }
}
