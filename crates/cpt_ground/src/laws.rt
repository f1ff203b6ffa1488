//! Laws of ground tasks: their contracts are what they say, and their bodies are empty.

ghost use Rattle.cpt_ground.specs.Laws.{OneGround, OneReading, SamePlans};

/// A domain and a problem that fits it have one reading with absence.
pub fn one_reading()
    ensures { OneReading }
{}

/// A domain and a problem that fits it have one ground task.
pub fn one_ground()
    ensures { OneGround }
{}

/// A plan is valid for a ground task exactly where it is valid for the reading of its domain and problem with
/// absence, with the same numbers of actions and the same makespan.
pub fn same_plans()
    ensures { SamePlans }
{}
