//! A law of searches: its contract is what it says, and its body is empty.

ghost use Rattle.cpt_solve.specs.Searches.{OneOutcome};

/// A search for a plan of a task has one outcome.
pub fn one_outcome_of_task()
    ensures { OneOutcome }
{}
