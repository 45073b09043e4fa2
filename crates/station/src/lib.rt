// A station's record of one end of a block: what the operators' calls and the slips it hears do to it.
#![tactic(auto)]

mod end;

pub use end::{Asking, Station};
