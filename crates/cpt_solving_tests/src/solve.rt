//! Tasks searched by the engine, over their best tables and with all rules.

ghost use Rattle.std.specs.Prelude.{IfSome, ◌≡◌, ◌≤◌, length};
ghost use Rattle.cpt_calculus.specs.Rules.{all_rules};
ghost use Rattle.cpt_tables.specs.Greatest.{IsBest};
ghost use Rattle.cpt_sheet.specs.Gaps.{FitsTask};

use crate::found::{Found, found_by};
use cpt_dist::dist_table;
use cpt_engine::Engine;
use cpt_h2::pair_table;
use cpt_order::OrderRules;
use cpt_outside::OutsideRules;
use cpt_search::search;
use cpt_store::{Both, Rule};
use cpt_support::SupportRules;
use cpt_tables::Tables;
use cpt_task::{Memory, Task};
use cpt_threat::ThreatRules;
use std::alloc::Global;

const RULES: Both<Both<OrderRules, SupportRules>, Both<ThreatRules, OutsideRules>> = Both {
    first: Both {
        first: OrderRules,
        second: SupportRules,
    },
    second: Both {
        first: ThreatRules,
        second: OutsideRules,
    },
};

/// The best tables of a task.
pub fn best_tables(alloc: Global, task: &Task) -> Option<Tables>
    ensures best { IfSome result (IsBest task.now) }
    ensures fits { IfSome result (FitsTask task.now) }
{
    if task.atoms().len() > 2048 || task.actions().len() > 4096 {
        return None;
    }
    let pairs = pair_table(alloc, task).ok()?;
    let dists = dist_table(alloc, task, &pairs).ok()?;
    Some(Tables { pairs, dists })
}

/// What the search of the engine finds, with how many calls it used as the nodes visited.
fn found_in<R: Rule + Copy>(
    alloc: Global,
    engine: &mut Engine<'_, R>,
    max: u64,
    nodes: u64,
) -> Option<Found>
    requires best { IsBest engine.old.task engine.old.tables }
    requires rules { R.covers ≡ all_rules }
    requires used { engine.old.used ≡ 0 }
{
    if max > 1_000_000 || nodes < 1 || nodes > 4_000_000_000 {
        return None;
    }
    let outcome = search(alloc, engine, max, nodes).ok()?;
    found_by(alloc, &outcome, engine.used())
}

fn found_with<R: Rule + Copy>(
    alloc: Global,
    task: &Task,
    tables: &Tables,
    rule: R,
    max: u64,
    nodes: u64,
) -> Result<Option<Found>, Memory>
    requires best { IsBest task.now tables.now }
    requires fits { FitsTask task.now tables.now }
    requires rules { R.covers ≡ all_rules }
{
    let mut engine = Engine::open(alloc, task, tables, 0, rule)?;
    Ok(found_in(alloc, &mut engine, max, nodes))
}

/// What the search finds, with how many calls it used as the nodes visited.
pub fn solve(alloc: Global, task: &Task, tables: &Tables, max: u64, nodes: u64) -> Option<Found>
    requires best { IsBest task.now tables.now }
    requires fits { FitsTask task.now tables.now }
{
    found_with(alloc, task, tables, RULES, max, nodes).ok()?
}
