// Sheets that are run, beside what is proved of every sheet.
#![tactic(auto)]

#[cfg(test)]
mod sheets;
