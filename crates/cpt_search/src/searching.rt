//! The search for a plan of least makespan.

ghost use Rattle.std.specs.Prelude.{◌≡◌, ℕ, ◌+◌, ◌<◌, ◌≤◌, ◌^◌, IfOk};
ghost use Rattle.cpt_tables.specs.Greatest.{IsBest};
ghost use Rattle.cpt_calculus.specs.Rules.{all_rules};
ghost use Rattle.cpt_tree.specs.declared.expansion.Expansion.TheVariants.{Leaf};
ghost use Rattle.cpt_outcome.specs.Nodes.{search_tree};
ghost use Rattle.cpt_outcome.specs.Outcomes.{goal_span, HasOutcome, IsPlanOfNode};
ghost use Rattle.cpt_search.specs.Answers.{HasTrees, IsIdle, IsSpending, outcome_of};

use crate::raise::{Raised, close_alone, raise_bound};
use cpt_branch::leaf_plan;
use cpt_engine::Engine;
use cpt_sheet::Tree;
use cpt_store::Rule;
use cpt_tables::set_span;
use cpt_task::{List, Memory, Occ, Span};
use std::alloc::Global;

/// What a search finds.
#[derive(Debug, Drop)]
pub enum Outcome {
    /// A plan of this makespan, which is the least, with the tree of the bound below; the empty plan has none.
    Optimal {
        plan: List<Occ>,
        makespan: u64,
        tree: Option<Tree>,
    },
    /// No plan of at most the greatest bound, with its tree.
    NoneUpTo {
        tree: Tree,
    },
    /// No plan at all.
    Never,
    /// No plan of at most this bound, with its tree; the tree of the next bound is too large, with its first nodes.
    Spent {
        refuted: u64,
        full: Tree,
        partial: Tree,
    },
}

/// The plan of the leaf at which the engine stands.
fn plan_of_leaf<R: Rule + Copy>(alloc: Global, engine: &Engine<'_, R>) -> Result<List<Occ>, Memory>
    requires rules { R.covers ≡ all_rules }
    requires leaf { search_tree (record { task = engine.now.task; tables = engine.now.tables; rules = R.covers }) engine.now.bound engine.now.decisions Leaf }
    ensures { IfOk result (IsPlanOfNode (record { task = engine.now.task; tables = engine.now.tables; rules = R.covers }) engine.now.bound engine.now.decisions) }
{
    let _ = engine.state();
    let ctx = engine.ctx();
    let _ = ctx.task.atoms();
    Ok(List::from_vec(leaf_plan(alloc, &ctx, engine.store())?))
}

/// The first moment at which the goal can hold.
fn first_moment<R: Rule + Copy>(engine: &Engine<'_, R>) -> Span
    ensures { result ≡ goal_span (record { task = engine.now.task; tables = engine.now.tables; rules = R.covers }) }
{
    let _ = engine.state();
    let ctx = engine.ctx();
    let _ = ctx.task.atoms();
    set_span(&ctx.tables.pairs, ctx.task.goal())
}

/// Searches for a plan of least makespan, at the bounds from the first moment at which the goal can hold up to `max`, with
/// a budget of nodes for each bound. The engine may stand anywhere before, and stands anywhere afterwards.
pub fn search<R: Rule + Copy>(
    alloc: Global,
    engine: &mut Engine<'_, R>,
    max: u64,
    nodes: u64,
) -> Result<Outcome, Memory>
    requires best { IsBest engine.old.task engine.old.tables }
    requires rules { R.covers ≡ all_rules }
    requires used { engine.old.used ≤ 2 ^ 63 }
    requires small { max ≤ 1000000 }
    requires some { 1 ≤ nodes }
    requires few { nodes ≤ 4000000000 }
    ensures task { engine.new.task ≡ engine.old.task }
    ensures tables { engine.new.tables ≡ engine.old.tables }
    ensures outcome { IfOk result (λ found. HasOutcome (record { task = engine.old.task; tables = engine.old.tables; rules = R.covers }) max nodes (outcome_of found)) }
    ensures trees { IfOk result (HasTrees (record { task = engine.old.task; tables = engine.old.tables; rules = R.covers }) max nodes) }
    ensures idle { IsIdle (goal_span (record { task = engine.old.task; tables = engine.old.tables; rules = R.covers })) max engine.old.used engine.new.used }
    ensures spending { IsSpending (record { task = engine.old.task; tables = engine.old.tables; rules = R.covers }) (goal_span (record { task = engine.old.task; tables = engine.old.tables; rules = R.covers })) max nodes engine.old.used engine.new.used }
{
    let Span::At(first) = first_moment(engine) else {
        return Ok(Outcome::Never);
    };
    if first == 0 {
        return Ok(Outcome::Optimal {
            plan: List::from_vec(Vec::new(alloc)),
            makespan: 0,
            tree: None,
        });
    }
    if max < first {
        return Ok(Outcome::NoneUpTo {
            tree: close_alone(alloc)?,
        });
    }
    match raise_bound(alloc, engine, first, max, nodes)? {
        Raised::Found { bound, below } => Ok(Outcome::Optimal {
            plan: plan_of_leaf(alloc, engine)?,
            makespan: bound,
            tree: Some(below),
        }),
        Raised::Refuted(tree) => Ok(Outcome::NoneUpTo { tree }),
        Raised::Spent {
            refuted,
            full,
            partial,
        } => Ok(Outcome::Spent {
            refuted,
            full,
            partial,
        }),
    }
}
