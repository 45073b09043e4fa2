// A line's record: its ends, the wire that it borrows, and its rule book.
ghost use Rattle.std.specs.Prelude.{◌≤◌, vec_len};

use book::RuleBook;
use station::Station;
use wire::Wire;

mod calls;
mod delivery;
mod ends;
mod opening;
mod outcomes;
mod sending;

// The ends stand block by block, the west end before the east end: one list, since a station's refusals name its place in it.
// While the line lives, nothing else touches the wire. It has no model: its clauses speak of the wire in the wire's own words.
#[derive(Drop)]
pub struct Line<'w, W: Wire, B: RuleBook> {
    ends: Vec<Station>,
    wire: &'w mut W,
    book: B,
    ghost ends_few: { vec_len ends ≤ 30 },
}
