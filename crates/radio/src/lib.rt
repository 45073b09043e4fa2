// The radio: a wire that answers in drawn order, may answer a slip more than once, and may lose one.
#![tactic(auto)]

mod air;

pub use air::Radio;
