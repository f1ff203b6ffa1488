//! What a search over a task finds.

ghost use Rattle.std.specs.Prelude.{◌≡◌, IfOk};
ghost use Rattle.cpt_files.specs.Accepted.{IsSmall};
ghost use Rattle.cpt_outcome.specs.Outcomes.{HasOutcome};
ghost use Rattle.cpt_search.specs.Answers.{HasTrees, outcome_of};
ghost use Rattle.cpt_options.specs.Options.{IsBudget};
ghost use Rattle.cpt_solve.specs.Searches.{AreBestTables, full_search};

use cpt_dist::dist_table;
use cpt_engine::Engine;
use cpt_h2::pair_table;
use cpt_options::Budget;
use cpt_order::OrderRules;
use cpt_outside::OutsideRules;
use cpt_search::{Outcome, search};
use cpt_store::Both;
use cpt_support::SupportRules;
use cpt_tables::Tables;
use cpt_task::{Memory, Task};
use cpt_threat::ThreatRules;
use std::alloc::Global;

/// The best tables of the task.
pub fn best_tables(alloc: Global, task: &Task) -> Result<Tables, Memory>
    requires { IsSmall task.now }
    ensures { IfOk result (AreBestTables task.now) }
{
    let pairs = pair_table(alloc, task)?;
    let dists = dist_table(alloc, task, &pairs)?;
    let _ = pairs.atoms();
    let _ = dists.atoms();
    Ok(Tables { pairs, dists })
}

/// What a search for a plan of the task finds, over its best tables and with all rules.
pub fn outcome_of_task(
    alloc: Global,
    task: &Task,
    tables: &Tables,
    budget: Budget,
) -> Result<Outcome, Memory>
    requires tables { AreBestTables task.now tables.now }
    requires budget { IsBudget budget }
    ensures outcome { IfOk result (λ found. HasOutcome (full_search task.now tables.now) budget.max budget.nodes (outcome_of found)) }
    ensures trees { IfOk result (HasTrees (full_search task.now tables.now) budget.max budget.nodes) }
{
    let rules = Both {
        first: Both {
            first: OrderRules,
            second: SupportRules,
        },
        second: Both {
            first: ThreatRules,
            second: OutsideRules,
        },
    };
    let mut engine = Engine::open(alloc, task, tables, 0, rules)?;
    search(alloc, &mut engine, budget.max, budget.nodes)
}
