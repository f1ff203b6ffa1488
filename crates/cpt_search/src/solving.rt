//! The engine as a search space.

ghost use Rattle.std.specs.Prelude.{◌≡◌, ◌≢◌, ◌<◌, ◌≤◌, ◌^◌, [], ◌∷◌, ◌++◌, length, IfOk};
ghost use Rattle.cpt_sheet.specs.declared.data.Decision.{Decision};
ghost use Rattle.cpt_outcome.proofs.NodeLemmas.{one-expansion};
ghost use Rattle.cpt_store.specs.Stores.{IsLent};
ghost use Rattle.cpt_search.specs.Expanding.{ExpandsAs};
ghost use Rattle.cpt_outcome.specs.Nodes.{SearchProblem, node_runs, search_tree};

use crate::space::SearchSpace;
use cpt_branch::{children, first_flaw};
use cpt_engine::{Engine, State};
use cpt_sheet::{Decision, Step};
use cpt_store::{Ctx, Rule, Store};
use cpt_task::{List, Memory, Steps};
use cpt_tree::Expansion;
use std::alloc::Global;
use std::marker::Brand;
use std::sync::ledger::{Blank, Ledger};

/// How a node expands whose fresh sheet is the store's.
fn expansion(alloc: Global, ctx: &Ctx, store: &Store) -> Result<Expansion, Memory>
    requires { IsLent ctx.now.task.now ctx.now.tables.now store.now }
    ensures { IfOk result (ExpandsAs ctx.now.task.now store.now.sheet) }
{
    match first_flaw(ctx, store) {
        None => Ok(Expansion::Leaf),
        Some(flaw) => {
            let decisions = children(alloc, ctx, store, flaw)?;
            Ok(Expansion::Branched(flaw, List::from_vec(decisions)))
        }
    }
}

/// Takes the newest decision back, with a counter that nobody reads.
fn take_back<R: Rule + Copy, L: Ledger>(engine: &mut Engine<'_, R>, blank: Blank)
    requires name { blank.name ≡ L.name }
    requires parts { blank.parts ≡ L.parts }
    requires some { 0 < L.parts }
    requires decided { engine.old.decisions ≢ [] }
    ensures task { engine.new.task ≡ engine.old.task }
    ensures tables { engine.new.tables ≡ engine.old.tables }
    ensures bound { engine.new.bound ≡ engine.old.bound }
    ensures used { engine.new.used ≡ engine.old.used }
    ensures decisions { (d : Decision) × (engine.old.decisions ≡ engine.new.decisions ++ d ∷ []) }
{
    let mut steps = Steps::<L>::new(blank);
    let _ = engine.retract(&mut steps);
}

impl<'a, R: Rule + Copy> SearchSpace for Engine<'a, R> {
    ghost Problem = { SearchProblem };

    ghost problem = { λ e. record { task = e.task; tables = e.tables; rules = R.covers } };

    ghost at_bound = { λ e. e.bound };

    ghost decisions = { λ e. e.decisions };

    ghost used = { λ e. e.used };

    ghost search_tree = { search_tree };

    ghost node_runs = { node_runs };

    fn reopen(&mut self, bound: u64) -> Result<(), Memory> {
        Engine::reopen(self, bound)
    }

    fn decide(&mut self, decision: Decision) -> Result<(), Memory> {
        let _ = self.state();
        Engine::decide(self, decision)?;
        Ok(())
    }

    fn retract(&mut self) {
        take_back::<R, Brand>(self, Blank::new(1));
    }

    fn depth(&self) -> usize {
        self.decisions().len()
    }

    fn expand(&self, alloc: Global) -> Result<Expansion, Memory> {
        match self.state() {
            State::Dead => Ok(Expansion::Closed),
            State::Alive => {
                let ctx = self.ctx();
                expansion(alloc, &ctx, self.store())
            }
        }
    }

    fn steps(&self) -> &[Step] {
        Engine::steps(self)
    }

    ghost deterministic = { one-expansion };
}
