// A telegraph's record: lent bytes as a ring of places, each with room for one slip.
ghost use Rattle.std.specs.Prelude.{◌<◌, ◌≤◌};
ghost use Rattle.telegraph.specs.Ring.{Readable, places};

mod calls;

// The oldest slip stands at the place `first`, and `count` slips stand from there on, around the ring.
// An index and a count beside lent bytes, and no queue of slips: all the memory that a telegraph has is its lender's buffer.
// It has no model: a wire owes a proof that all that waits is in form, which its fields bring and a model's value would not.
#[derive(Drop)]
pub struct Telegraph<'a> {
    bytes: &'a mut [u8],
    first: usize,
    count: usize,
    ghost within: { 0 < places bytes.now → first < places bytes.now },
    ghost few: { count ≤ places bytes.now },
    ghost readable: { Readable bytes.now first count },
}
