// Slips sent over a wire and taken from it again, and what a lineman is told of both.
#![tactic(auto)]

mod post;
mod receive;
mod totals;
mod trial;

pub use totals::Totals;
pub use trial::{Trial, try_wire};
