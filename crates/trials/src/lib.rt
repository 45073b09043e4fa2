// Worked trials: these functions do nothing, and their contracts state what the definitions come to.
#![tactic(auto)]

ghost use Rattle.trials.specs.Plays.{PlaysAreRuns, PlaysInTurn};
ghost use Rattle.trials.specs.Shortcuts.{Shortcuts};
ghost use Rattle.trials.specs.Trials.{Sheet, Trials};

// Each trial, as the answers of its calls.
pub fn trials()
    ensures { Trials }
{}

// The readable lines of the worked sheet.
pub fn sheet()
    ensures { Sheet }
{}

// Stations that do not keep the rules break the law.
pub fn shortcuts()
    ensures { Shortcuts }
{}

// What is played by the rules is a run, so that the law holds of it.
pub fn plays_are_runs()
    ensures any { PlaysAreRuns }
    ensures in_turn { PlaysInTurn }
{}

#[cfg(test)]
mod journeys;
#[cfg(test)]
mod wires;
