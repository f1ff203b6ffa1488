//! Small tasks as texts, their tables, and the rules.

ghost use Rattle.std.specs.Prelude.{◌≡◌, IfOk};
ghost use Rattle.cpt_sheet.specs.Gaps.{FitsTask};

use cpt_dist::dist_table;
use cpt_h2::pair_table;
use cpt_order::OrderRules;
use cpt_outside::OutsideRules;
use cpt_store::Both;
use cpt_support::SupportRules;
use cpt_tables::{DistTable, PairTable, Tables};
use cpt_task::{Span, Task};
use cpt_task_text::read_task;
use cpt_threat::ThreatRules;
use std::alloc::Global;
use std::test::Fail;

/// Three actions take what they share and give it back: no two run at one time.
pub const RESOURCE: &str = "task 4 3
atom (r)
atom (g1)
atom (g2)
atom (g3)
action (a1) 2
pre 0
add 0 1
del 0
action (a2) 2
pre 0
add 0 2
del 0
action (a3) 2
pre 0
add 0 3
del 0
init 0
goal 1 2 3
";

/// Two chains of two actions each, which share nothing.
pub const CHAINS: &str = "task 4 4
atom (k1)
atom (g1)
atom (k2)
atom (g2)
action (u1) 1
pre
add 0
del
action (v1) 2
pre 0
add 1
del
action (u2) 1
pre
add 2
del
action (v2) 2
pre 2
add 3
del
init
goal 1 3
";

/// A key opens one of two doors and is used up; another one lies behind the first door.
pub const KEY: &str = "task 5 5
atom (key)
atom (first)
atom (behind)
atom (second)
atom (both)
action (open-first) 2
pre 0
add 1
del 0
action (enter) 1
pre 1
add 2
del
action (open-second) 3
pre 0
add 3
del 0
action (take) 1
pre 2
add 0
del 2
action (close) 1
pre 1 3
add 4
del
init 0
goal 4
";

/// Two trucks and two packages, which are to change their places.
pub const TRUCKS: &str = "task 12 20
atom (at t0 a)
atom (at t0 b)
atom (at t1 a)
atom (at t1 b)
atom (at p0 a)
atom (at p0 b)
atom (at p1 a)
atom (at p1 b)
atom (in p0 t0)
atom (in p0 t1)
atom (in p1 t0)
atom (in p1 t1)
action (drive t0 a b) 3
pre 0
add 1
del 0
action (drive t0 b a) 3
pre 1
add 0
del 1
action (drive t1 a b) 3
pre 2
add 3
del 2
action (drive t1 b a) 3
pre 3
add 2
del 3
action (load p0 t0 a) 1
pre 0 4
add 8
del 4
action (unload p0 t0 a) 1
pre 0 8
add 4
del 8
action (load p0 t0 b) 1
pre 1 5
add 8
del 5
action (unload p0 t0 b) 1
pre 1 8
add 5
del 8
action (load p0 t1 a) 1
pre 2 4
add 9
del 4
action (unload p0 t1 a) 1
pre 2 9
add 4
del 9
action (load p0 t1 b) 1
pre 3 5
add 9
del 5
action (unload p0 t1 b) 1
pre 3 9
add 5
del 9
action (load p1 t0 a) 1
pre 0 6
add 10
del 6
action (unload p1 t0 a) 1
pre 0 10
add 6
del 10
action (load p1 t0 b) 1
pre 1 7
add 10
del 7
action (unload p1 t0 b) 1
pre 1 10
add 7
del 10
action (load p1 t1 a) 1
pre 2 6
add 11
del 6
action (unload p1 t1 a) 1
pre 2 11
add 6
del 11
action (load p1 t1 b) 1
pre 3 7
add 11
del 7
action (unload p1 t1 b) 1
pre 3 11
add 7
del 11
init 0 2 4 7
goal 5 6
";

/// A satellite turns between three directions, switches its camera on, calibrates it and takes two images.
pub const SATELLITE: &str = "task 7 10
atom (at x)
atom (at y)
atom (at z)
atom (power)
atom (calibrated)
atom (image y)
atom (image z)
action (turn x y) 5
pre 0
add 1
del 0
action (turn x z) 5
pre 0
add 2
del 0
action (turn y x) 5
pre 1
add 0
del 1
action (turn y z) 5
pre 1
add 2
del 1
action (turn z x) 5
pre 2
add 0
del 2
action (turn z y) 5
pre 2
add 1
del 2
action (switch-on) 2
pre
add 3
del 4
action (calibrate) 5
pre 0 3
add 4
del
action (image y) 7
pre 1 3 4
add 5
del
action (image z) 7
pre 2 3 4
add 6
del
init 1
goal 5 6
";

/// The task that the text spells.
pub fn task_of(alloc: Global, text: &str) -> Result<Task, Fail> {
    let bytes = text.as_bytes();
    if bytes.len() > 4096 {
        return Err("too long a text")?;
    }
    Ok(read_task(alloc, bytes)?)
}

/// The greatest tables of the task.
pub fn tables_of(alloc: Global, task: &Task) -> Result<Tables, Fail>
    ensures { IfOk result (FitsTask task.now) }
{
    if task.atoms().len() > 2048 || task.actions().len() > 4096 {
        return Err("too large a task")?;
    }
    let pairs = pair_table(alloc, task)?;
    let dists = dist_table(alloc, task, &pairs)?;
    Ok(Tables { pairs, dists })
}

/// Tables of zeros for the task.
pub fn zero_tables_of(alloc: Global, task: &Task) -> Result<Tables, Fail>
    ensures { IfOk result (FitsTask task.now) }
{
    let atoms = task.atoms().len();
    let actions = task.actions().len();
    if atoms > 2048 || actions > 4096 {
        return Err("too large a task")?;
    }
    let pairs = PairTable::filled(alloc, atoms as u32, Span::At(0))?;
    let dists = DistTable::filled(alloc, actions as u32, atoms as u32, Span::At(0))?;
    Ok(Tables { pairs, dists })
}

/// Rules 1 to 9.
pub type InsideRules = Both<Both<OrderRules, SupportRules>, ThreatRules>;

/// Rules 1 to 13.
pub type AllRules = Both<Both<OrderRules, SupportRules>, Both<ThreatRules, OutsideRules>>;

pub const INSIDE_RULES: InsideRules = Both {
    first: Both {
        first: OrderRules,
        second: SupportRules,
    },
    second: ThreatRules,
};

pub const ALL_RULES: AllRules = Both {
    first: Both {
        first: OrderRules,
        second: SupportRules,
    },
    second: Both {
        first: ThreatRules,
        second: OutsideRules,
    },
};
