//! Laws of schedules: their contracts are what they say, and their bodies are empty.

ghost use Rattle.cpt_tighten.specs.Laws.{ChainsAddUp, EarliestEndsFirst, OneChain, OneEarliest, SchedulesAreValid};

/// Every schedule of a valid plan that keeps its needs is valid.
pub fn schedules_are_valid()
    ensures { SchedulesAreValid }
{}

/// No schedule that keeps the needs has a smaller makespan than the earliest one.
pub fn earliest_ends_first()
    ensures { EarliestEndsFirst }
{}

/// The durations along the chain add up to the makespan.
pub fn chains_add_up()
    ensures { ChainsAddUp }
{}

/// A plan has one earliest schedule.
pub fn one_earliest()
    ensures { OneEarliest }
{}

/// A schedule has one chain.
pub fn one_chain()
    ensures { OneChain }
{}
