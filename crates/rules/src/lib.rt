// Both ends of a block as rules: their rows, the calls and what they answer; and the law of safety, proved.
#![tactic(auto)]

mod answers;
mod calls;
mod law;
mod rows;

pub use answers::{Answer, Delivered, Ending, Sent};
pub use calls::Call;
pub use law::{always_safe, rows_always};
pub use rows::{Heard, HeldRow, OwnRow, Permission, PromisedRow, RowState, Word};
