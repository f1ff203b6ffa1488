//! Laws of plans: their contracts are what they say, and their bodies are empty.

ghost use Rattle.cpt_task.specs.Judging.{OneVerdict};
ghost use Rattle.cpt_task.specs.Optimal.{NoPlanByRefutation, OptimalityByRefutation};

/// A plan has one verdict.
pub fn one_verdict()
    ensures { OneVerdict }
{}

/// A valid plan is optimal exactly where each bound below its makespan is refuted.
pub fn optimality_by_refutation()
    ensures { OptimalityByRefutation }
{}

/// No plan is valid exactly where every bound is refuted.
pub fn no_plan_by_refutation()
    ensures { NoPlanByRefutation }
{}
