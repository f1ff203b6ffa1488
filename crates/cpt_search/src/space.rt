//! What a search moves through.

ghost use Rattle.std.specs.Prelude.{◌≡◌, ◌≢◌, ℕ, ◌+◌, ◌-◌, ◌<◌, ◌≤◌, ◌^◌, List, [], ◌∷◌, ◌++◌, length, Contains, OnOk, OnErr, IfOk};
ghost use Rattle.cpt_sheet.specs.declared.data.Decision.{Decision};
ghost use Rattle.cpt_sheet.specs.declared.data.Step.{Step};
ghost use Rattle.cpt_tree.specs.declared.expansion.Expansion.{Expansion};
ghost use Rattle.cpt_tree.specs.Trees.{IsDeterministic, choices};

use cpt_sheet::{Decision, Step};
use cpt_task::Memory;
use cpt_tree::Expansion;
use std::alloc::Global;

/// A search tree that is moved through: a bound, and a list of decisions that grows and shrinks at its end and leads to
/// the node where the space stands. The trees are given by the space's problem, which no call changes.
pub trait SearchSpace {
    // What is searched.
    ghost Problem: { Type 0 };

    ghost problem: { Self → Problem };

    // The bound, and the decisions that stand.
    ghost at_bound: { Self → ℕ };

    ghost decisions: { Self → List Decision };

    // How many decisions and reopenings were answered with Ok.
    ghost used: { Self → ℕ };

    // The search tree of each bound, and the runs of steps that its nodes may have.
    ghost search_tree: { Problem → ℕ → List Decision → Expansion → Type 0 };

    ghost node_runs: { Problem → ℕ → List Decision → List Step → Type 0 };

    /// Stands at the root of this bound. After `Memory` all is as before.
    fn reopen(&mut self, bound: u64) -> Result<(), Memory>
        requires few { used self.old < 2 ^ 64 - 1 }
        requires small { bound ≤ 1000000 }
        ensures problem { problem self.new ≡ problem self.old }
        ensures ok { OnOk result ((at_bound self.new ≡ bound) × (decisions self.new ≡ []) × (used self.new ≡ used self.old + 1)) }
        ensures err { OnErr result ((at_bound self.new ≡ at_bound self.old) × (decisions self.new ≡ decisions self.old) × (used self.new ≡ used self.old)) };

    /// Decides one thing more. After `Memory` all is as before.
    fn decide(&mut self, decision: Decision) -> Result<(), Memory>
        requires few { used self.old < 2 ^ 64 - 1 }
        requires short { length (decisions self.old) < 4000000000 }
        requires fits { (f : Expansion) × search_tree (problem self.old) (at_bound self.old) (decisions self.old) f × Contains (choices f) decision }
        ensures problem { problem self.new ≡ problem self.old }
        ensures bound { at_bound self.new ≡ at_bound self.old }
        ensures ok { OnOk result ((decisions self.new ≡ decisions self.old ++ decision ∷ []) × (used self.new ≡ used self.old + 1)) }
        ensures err { OnErr result ((decisions self.new ≡ decisions self.old) × (used self.new ≡ used self.old)) };

    /// Takes the newest decision back.
    fn retract(&mut self)
        requires { decisions self.old ≢ [] }
        ensures problem { problem self.new ≡ problem self.old }
        ensures bound { at_bound self.new ≡ at_bound self.old }
        ensures used { used self.new ≡ used self.old }
        ensures decisions { (d : Decision) × (decisions self.old ≡ decisions self.new ++ d ∷ []) };

    /// How many decisions stand.
    fn depth(&self) -> usize
        ensures { result ≡ length (decisions self.now) };

    /// How the node expands.
    fn expand(&self, alloc: Global) -> Result<Expansion, Memory>
        ensures { IfOk result (search_tree (problem self.now) (at_bound self.now) (decisions self.now)) };

    /// The run of steps of the node.
    fn steps(&self) -> &[Step]
        ensures { node_runs (problem self.now) (at_bound self.now) (decisions self.now) result.now };

    // A node expands in one way.
    ghost deterministic: { (w : Problem) (b : ℕ) → IsDeterministic (search_tree w b) };
}
