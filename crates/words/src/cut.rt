// A line's words: parts of its bytes, each with its column.
ghost use Rattle.std.specs.Option.{option_map};
ghost use Rattle.std.specs.Prelude.{◌+◌, ◌≤◌, ◌^◌};
ghost use Rattle.words.specs.Room.{room};

mod moves;

// A part of the line. An empty one has the column that its first byte would have.
#[derive(Clone, Copy)]
pub struct Word<'a> {
    pub text: &'a [u8],
    // of its first byte, from 1
    pub column: usize,
}

// What is left of a line: at least one word, perhaps an empty one, until the last is taken.
// It has no model, since it is `Copy` and lent bytes have a lifetime.
#[derive(Clone, Copy)]
pub struct Words<'a> {
    rest: Option<&'a [u8]>,
    // where the next word stands; past the last, one past the line's end
    column: usize,
    // no column overflows
    ghost fits: { column + room (option_map (λ r. r.now) rest) ≤ 2 ^ 64 },
}
