// A line of a sheet: cut into words that borrow its bytes, and read as a call.
#![tactic(auto)]

mod command;
mod cut;
mod read;
mod spell;

pub use command::Command;
pub use cut::{Word, Words};
pub use read::{read_line, reads_written, words_parted};
