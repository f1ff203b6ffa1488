//! A search space of two decisions that exclude each other: the second leads to a leaf from bound 3 on.

ghost use Rattle.std.specs.Prelude.{◌≡◌, ℕ, ◌+◌, ◌<◌, ◌^◌, List, [], ◌∷◌, ◌++◌, length, IfOk};
ghost use Rattle.std.proofs.Common.{sym, ◌∙◌};
ghost use Rattle.cpt_search_tests.specs.Small.{expansion_of, expansion_after};

use cpt_search::SearchSpace;
use cpt_sheet::{Decision, Flaw, Step};
use cpt_task::{List, Memory};
use cpt_tree::Expansion;
use std::alloc::Global;

/// The space.
#[derive(Drop)]
pub struct SmallSpace {
    pub bound: u64,
    pub decisions: Vec<Decision>,
    pub steps: Vec<Step>,
    pub used: u64,
}

fn at_root(alloc: Global) -> Result<Expansion, Memory>
    ensures { IfOk result (λ f. f ≡ expansion_of 0 []) }
{
    let mut choices = Vec::new(alloc);
    choices.push(Decision::Before {
        first: 2,
        second: 3,
    })?;
    choices.push(Decision::Before {
        first: 3,
        second: 2,
    })?;
    Ok(Expansion::Branched(
        Flaw::Clash {
            first: 2,
            second: 3,
        },
        List::from_vec(choices),
    ))
}

fn behind(bound: u64, decision: &Decision) -> Expansion
    ensures { result ≡ expansion_after bound decision.now }
{
    match decision {
        Decision::Before { first, second: _ } => {
            if *first == 3 {
                if bound < 3 {
                    Expansion::Closed
                } else {
                    Expansion::Leaf
                }
            } else {
                Expansion::Closed
            }
        }
        _ => Expansion::Closed,
    }
}

impl SearchSpace for SmallSpace {
    ghost Problem = { ℕ };

    ghost problem = { λ e. 0 };

    ghost at_bound = { λ e. e.bound };

    ghost decisions = { λ e. e.decisions.items };

    ghost used = { λ e. e.used };

    ghost search_tree = { λ w b ds f. f ≡ expansion_of b ds };

    ghost node_runs = { λ w b ds steps. steps ≡ steps };

    fn reopen(&mut self, bound: u64) -> Result<(), Memory> {
        self.bound = bound;
        self.decisions.clear();
        self.used += 1;
        Ok(())
    }

    fn decide(&mut self, decision: Decision) -> Result<(), Memory> {
        self.decisions.push(decision)?;
        self.used += 1;
        Ok(())
    }

    fn retract(&mut self) {
        let _ = self.decisions.pop();
    }

    fn depth(&self) -> usize {
        self.decisions.len()
    }

    fn expand(&self, alloc: Global) -> Result<Expansion, Memory> {
        match self.decisions.as_slice() {
            [] => at_root(alloc),
            [decision] => Ok(behind(self.bound, decision)),
            _ => Ok(Expansion::Closed),
        }
    }

    fn steps(&self) -> &[Step] {
        self.steps.as_slice()
    }

    ghost deterministic = { λ w b ds f g h k. h ∙ sym k };
}
