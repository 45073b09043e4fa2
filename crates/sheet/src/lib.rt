// A sheet: its lines performed one by one, and the report.
#![tactic(auto)]

mod report;
mod run;

pub use report::Entry;
pub use run::{perform_sheet, report_sheet};
