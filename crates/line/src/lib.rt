// A line of blocks over a wire: the nine calls, and writing Form A.
#![tactic(auto)]

mod line;
mod making;
mod site;

pub use line::Line;
pub use making::Ends;
