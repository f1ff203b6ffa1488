//! Laws of the rules: their contracts are what they say, and their bodies are empty.

ghost use Rattle.cpt_calculus.specs.Closing.{ClosingSteps, DyingSteps, MonotoneRules, OneClosure};
ghost use Rattle.cpt_calculus.specs.Members.{ListsByMembers, OrdersByMembers};

/// What a rule allows at a sheet it allows, or it changes nothing, at every sheet below that is not dead.
pub fn monotone_rules()
    ensures { MonotoneRules }
{}

/// Legal steps from a formed sheet that end in a closed one that is not dead end in the closure.
pub fn closing_steps()
    ensures { ClosingSteps }
{}

/// Where legal steps end in a dead sheet there is no closure.
pub fn dying_steps()
    ensures { DyingSteps }
{}

/// A sheet has one closure or none.
pub fn one_closure()
    ensures { OneClosure }
{}

/// A candidate list is known by who stands in it.
pub fn lists_by_members()
    ensures { ListsByMembers }
{}

/// The orders are known by which of them stand.
pub fn orders_by_members()
    ensures { OrdersByMembers }
{}
