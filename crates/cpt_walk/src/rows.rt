//! Rows of tables: their form, how many values they have, and how they are put into a table.

ghost use Rattle.std.specs.Prelude.{◌≡◌, ◌+◌, ◌<◌, ◌≤◌, ◌==◌, length, replicate, All};
ghost use Rattle.cpt_tables.specs.Spans.{IsBelow};
ghost use Rattle.cpt_cert_form.specs.Forms.{IsRun};
ghost use Rattle.cpt_cert_accept.specs.Reading.{values_of, is_form, is_row};
ghost use Rattle.cpt_walk.specs.Puts.{PutsPairs, PutsDists};

use cpt_cert_read::{Run, Version, are_alone, are_runs};
use cpt_tables::{DistTable, PairTable};

fn is_form(version: Version, runs: &[Run]) -> bool
    ensures { result ≡ is_form version runs.now }
{
    match version {
        Version::One => are_alone(runs),
        Version::Two => are_runs(runs),
    }
}

/// The row has so many values.
fn has_count(runs: &[Run], count: u32) -> bool
    ensures { result ≡ (length (values_of runs.now) == count) }
{
    let mut left = count;
    for run in runs {
        if run.count > left {
            return false;
        }
        left -= run.count;
    }
    left == 0
}

/// The row is written as its version asks, and has so many values.
pub fn is_row(version: Version, count: u32, runs: &[Run]) -> bool
    ensures { result ≡ is_row version count runs.now }
{
    is_form(version, runs) && has_count(runs, count)
}

fn put_pair_run(pairs: &mut PairTable, p: u32, q: u32, run: Run)
    requires first { p ≤ q }
    requires fits { q + run.count ≤ pairs.old.atoms }
    requires small { IsBelow 1000000000000000 run.value }
    ensures { PutsPairs pairs.old pairs.new p q (replicate run.count run.value) }
{
    let _few = pairs.atoms();
    for i in 0..run.count {
        pairs.set(p, q + i, run.value);
    }
}

/// Puts the values of an atom and each atom from it on.
pub fn put_pair_row(pairs: &mut PairTable, p: u32, runs: &[Run])
    requires fits { p + length (values_of runs.now) ≡ pairs.old.atoms }
    requires runs { All IsRun runs.now }
    ensures { PutsPairs pairs.old pairs.new p p (values_of runs.now) }
{
    let _few = pairs.atoms();
    let mut q = p;
    for run in runs {
        put_pair_run(pairs, p, q, *run);
        q += run.count;
    }
}

fn put_dist_run(dists: &mut DistTable, act: u32, q: u32, run: Run)
    requires act { act < dists.old.actions }
    requires fits { q + run.count ≤ dists.old.atoms }
    requires small { IsBelow 1000000000000000 run.value }
    ensures { PutsDists dists.old dists.new act q (replicate run.count run.value) }
{
    let _few = dists.atoms();
    for i in 0..run.count {
        dists.set(act, q + i, run.value);
    }
}

/// Puts the values of an action and each atom.
pub fn put_dist_row(dists: &mut DistTable, act: u32, runs: &[Run])
    requires act { act < dists.old.actions }
    requires fits { length (values_of runs.now) ≡ dists.old.atoms }
    requires runs { All IsRun runs.now }
    ensures { PutsDists dists.old dists.new act 0 (values_of runs.now) }
{
    let _few = dists.atoms();
    let mut q = 0;
    for run in runs {
        put_dist_run(dists, act, q, *run);
        q += run.count;
    }
}
