//! Laws of what a step wakes: their contracts are what they say, and their bodies are empty.

ghost use Rattle.cpt_waking.specs.Waking.{AsleepStaysClosed, BothStayClosed, BringWakes, DecisionWakes, StepSettles, UnrelatedStaysClosed, WakesByTable};

/// What a legal step does not wake has no legal step after it where it had none before.
pub fn asleep_stays_closed()
    ensures { AsleepStaysClosed }
{}

/// What stays closed for some rules and for others stays closed for all of them.
pub fn both_stay_closed()
    ensures { BothStayClosed }
{}

/// Only those are woken that the table of changes names.
pub fn wakes_by_table()
    ensures { WakesByTable }
{}

/// Whom the table does not name stays closed, whatever the rules.
pub fn unrelated_stays_closed()
    ensures { UnrelatedStaysClosed }
{}

/// What an order or a join does not wake keeps having no legal step.
pub fn decision_wakes()
    ensures { DecisionWakes }
{}

/// Which outside actions a new token does not wake.
pub fn bring_wakes()
    ensures { BringWakes }
{}

/// After a legal step each that is there is on the agenda or has no legal step, where it was so before and whoever does
/// not stay closed is put on.
pub fn step_settles()
    ensures { StepSettles }
{}
