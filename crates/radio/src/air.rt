// A radio's record: the slips on the air, and the bytes that it draws its choices from.
ghost use Rattle.std.specs.Prelude.{◌≤◌, vec_len, vec_capacity};
ghost use Rattle.wire.specs.Waiting.{Formed};

use slip::Slip;

mod calls;

// Memory for all 32 slips is reserved when it is made.
// It has no model: a wire owes a proof that all that waits is in form, which its fields bring and a model's value would not.
#[derive(Drop)]
pub struct Radio<'a> {
    slips: Vec<Slip>,
    // the bytes that are left to draw
    draws: &'a [u8],
    ghost few: { vec_len slips ≤ 32 },
    ghost reserved: { 32 ≤ vec_capacity slips },
    ghost inform: { Formed slips.items },
}
