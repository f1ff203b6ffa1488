//! The laws.

ghost use Rattle.cpt_soundness.specs.Acting.{DeletersKeepAway, GapsKept, GoalBounds};
ghost use Rattle.cpt_soundness.specs.Laws.{RootAdmits, NarrowKeeps, DeadAdmitsNone};
ghost use Rattle.cpt_soundness.specs.Children.{ChildrenCover};
ghost use Rattle.cpt_soundness.specs.Forming.{RootFormed, NarrowFormed, ApplyFormed, ChildrenFit};
ghost use Rattle.cpt_soundness.specs.Tree.{BranchesClose, StepsClose, TreeRefutes};

/// Over admissible tables every valid plan keeps the gaps: who ends before another begins leaves the gap of the
/// tables between their beginnings.
pub fn gaps_kept()
    ensures { GapsKept }
{}

/// Over admissible tables every valid plan has at least the makespan at which the goal can hold, and there is none where
/// that is `Never`.
pub fn goal_bounds()
    ensures { GoalBounds }
{}

/// Where someone supplies an atom that another needs, an occurrence that deletes it, and is neither of the two, ends
/// before the one begins or begins after the other ends.
pub fn deleters_keep_away()
    ensures { DeletersKeepAway }
{}

/// The root admits every valid plan with a makespan of at most its bound, under every map.
pub fn root_admits()
    ensures { RootAdmits }
{}

/// A legal step of any of the thirteen rules keeps every valid plan that a formed sheet admits, under the same map.
pub fn narrow_keeps()
    ensures { NarrowKeeps }
{}

/// A dead sheet admits no valid plan.
pub fn dead_admits_none()
    ensures { DeadAdmitsNone }
{}

/// Each valid plan that a formed sheet with a flaw admits is admitted after one of the flaw's children: under the same
/// map, or, where a token is brought, with a place for it.
pub fn children_cover()
    ensures { ChildrenCover }
{}

/// Over tables of the task's sizes the root of a bound of at most a million is formed.
pub fn root_formed()
    ensures { RootFormed }
{}

/// A legal step keeps a sheet formed.
pub fn narrow_formed()
    ensures { NarrowFormed }
{}

/// A decision that fits keeps a sheet formed.
pub fn apply_formed()
    ensures { ApplyFormed }
{}

/// The children of a flaw of a formed sheet fit.
pub fn children_fit()
    ensures { ChildrenFit }
{}

/// Where legal steps lead on from a sheet to one with a closed tree, a closed tree stands over it.
pub fn steps_close()
    ensures { StepsClose }
{}

/// Where a closed tree stands over the sheet after each child of a flaw, one stands over the sheet.
pub fn branches_close()
    ensures { BranchesClose }
{}

/// Where a closed tree stands over the root of a bound, of legal steps, of branches on flaws with all their children
/// and of dead sheets, no valid plan of any number of occurrences has a makespan of at most that bound.
pub fn tree_refutes()
    ensures { TreeRefutes }
{}
