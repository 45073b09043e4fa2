// What a lineman writes and reads of slips: hexadecimal digits in, plain words out.
#![tactic(auto)]

mod digits;
mod tell;

pub use digits::slip_on;
pub use tell::LineReport;
