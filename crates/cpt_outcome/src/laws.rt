//! Laws of search trees and outcomes: their contracts are what they say, and their bodies are empty.

ghost use Rattle.cpt_outcome.specs.Nodes.{NodesVisited, ChoicesFit, FreshIsClosed, OneExpansion, TraversalsAgree};
ghost use Rattle.cpt_outcome.specs.Enough.{SpentBelowEnough, ChainsShort, ChoicesCommit, TreesEnough};
ghost use Rattle.cpt_outcome.specs.Partial.{PartialTextsCount};
ghost use Rattle.cpt_outcome.specs.Refuting.{ExhaustedTreesRefute, FinishedTextsRefute, TextsBelowRefute};
ghost use Rattle.cpt_outcome.specs.Leaves.{LeafPlansValid, OnePlan};
ghost use Rattle.cpt_outcome.specs.Outcomes.{FindsNone, FindsPlans, OneOutcome, OutcomesHold, SpentIsLarger};
ghost use Rattle.cpt_outcome.specs.Goals.{ZeroGoalsEmpty};

/// A node expands in one way.
pub fn one_expansion()
    ensures { OneExpansion }
{}

/// Two traversals of one tree agree as far as both go.
pub fn traversals_agree()
    ensures { TraversalsAgree }
{}

/// A fresh sheet is formed, live, and closed for the rules.
pub fn fresh_is_closed()
    ensures { FreshIsClosed }
{}

/// A decision that leads to a child of a node fits the node's fresh sheet, which is there and has few tokens where few
/// decisions stand.
pub fn choices_fit()
    ensures { ChoicesFit }
{}

/// Each child of an open need fixes a list for good, and each child of another flaw adds an order: what a child's decision
/// commits to is not made before it, and stays made behind it.
pub fn choices_commit()
    ensures { ChoicesCommit }
{}

/// Where a tree is finished and has no leaf, its text refutes its bound: no valid plan of any number of occurrences has a
/// makespan of at most that bound.
pub fn finished_texts_refute()
    ensures { FinishedTextsRefute }
{}

/// The text of the tree below a bound refutes all below that bound.
pub fn texts_below_refute()
    ensures { TextsBelowRefute }
{}

/// A finished tree without a leaf refutes its bound by itself, without the steps of a text.
pub fn exhausted_trees_refute()
    ensures { ExhaustedTreesRefute }
{}

/// The plan of a leaf, with each action token at its first moment, is valid, and its makespan is at most the bound.
pub fn leaf_plans_valid()
    ensures { LeafPlansValid }
{}

/// A sheet has one plan.
pub fn one_plan()
    ensures { OnePlan }
{}

/// A search has at most one outcome.
pub fn one_outcome()
    ensures { OneOutcome }
{}

/// What an outcome says is so: an optimal plan is optimal among all valid plans of any number of occurrences, and where it
/// says that there is none, there is none.
pub fn outcomes_hold()
    ensures { OutcomesHold }
{}

/// The budget is spent only in a tree with more nodes.
pub fn spent_is_larger()
    ensures { SpentIsLarger }
{}

/// Where there is a valid plan of at most the greatest bound, and the budget is enough, the outcome is an optimal plan.
pub fn finds_plans()
    ensures { FindsPlans }
{}

/// Where there is no valid plan of at most the greatest bound, and the budget is enough, the outcome says so.
pub fn finds_none()
    ensures { FindsNone }
{}

/// The tree of each bound is finite: it has at most enough nodes.
pub fn trees_enough()
    ensures { TreesEnough }
{}

/// A fresh sheet has no chain of more brought tokens up to the end than its bound.
pub fn chains_short()
    ensures { ChainsShort }
{}

/// Where the greatest pair table gives the goal 0, the empty plan is optimal.
pub fn zero_goals_empty()
    ensures { ZeroGoalsEmpty }
{}

/// The text of a partial tree closes or branches exactly as many nodes as were visited, and leaves some open.
pub fn partial_texts_count()
    ensures { PartialTextsCount }
{}

/// A finished tree is visited whole: its nodes, and no other.
pub fn nodes_visited()
    ensures { NodesVisited }
{}

/// A budget that is spent is below enough.
pub fn spent_below_enough()
    ensures { SpentBelowEnough }
{}
