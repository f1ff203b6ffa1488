//! Laws of pruning: their contracts are what they say, and their bodies are empty.

ghost use Rattle.cpt_reach.specs.Reached.{ReachedIsLeast};
ghost use Rattle.cpt_reach.specs.Plans.{KeptPartKeepsPlans};
ghost use Rattle.cpt_reach.specs.Pruning.{LimitsAreExact, OnePruning};

/// The reached atoms are the least set that holds the initial atoms and is closed under the actions.
pub fn reached_is_least()
    ensures { ReachedIsLeast }
{}

/// The kept part of a task has its plans.
pub fn kept_part_keeps_plans()
    ensures { KeptPartKeepsPlans }
{}

/// Two prunings of a task answer the same, unless memory is wanting.
pub fn one_pruning()
    ensures { OnePruning }
{}

/// Each limit is answered exactly where the kept part passes it, unless memory is wanting.
pub fn limits_are_exact()
    ensures { LimitsAreExact }
{}
