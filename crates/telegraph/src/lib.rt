// The telegraph: a wire over lent bytes that keeps the order of its slips and loses none.
#![tactic(auto)]

mod ring;

pub use ring::Telegraph;
