//! Of the occurrences that have ended, the one that ended last, for each atom.

ghost use Rattle.std.specs.Prelude.{◌≡◌, ◌<◌, ℕ, All, length, IfOk, IfSome, replicate, None};
ghost use Rattle.cpt_task.specs.Judgeable.{IsJudgeable};
ghost use Rattle.cpt_task.specs.Shape.{HasAtomsBelow};
ghost use Rattle.cpt_tighten.specs.Best.{best_over, entry, moved, IsNoted};
ghost use Rattle.cpt_tighten.specs.Records.{best_of, IsBlank, IsSized, IsTaken};

use crate::moments::{Finish, finish_at, later_of};
use cpt_task::{Action, Memory, Occ, Task};
use std::alloc::Global;

/// By atom, which occurrence ended last of those that need it, add it and delete it, in the new schedule; and which adder of it ended
/// last in the given plan.
#[derive(Drop)]
pub struct Records {
    pub needs: Vec<Option<Finish>>,
    pub adds: Vec<Option<Finish>>,
    pub deletes: Vec<Option<Finish>>,
    pub adders: Vec<Option<Finish>>,
}

/// No end, for each of so many.
pub fn none_for(alloc: Global, atoms: usize) -> Result<Vec<Option<Finish>>, Memory>
    ensures { IfOk result (λ table. table.items ≡ replicate atoms None) }
{
    let mut table = Vec::with_capacity(alloc, atoms)?;
    for _ in 0..atoms {
        table.push(None)?;
    }
    Ok(table)
}

/// The records before anything has ended.
pub fn no_records(alloc: Global, atoms: usize) -> Result<Records, Memory>
    ensures { IfOk result (IsBlank atoms) }
{
    let needs = none_for(alloc, atoms)?;
    let adds = none_for(alloc, atoms)?;
    let deletes = none_for(alloc, atoms)?;
    let adders = none_for(alloc, atoms)?;
    Ok(Records {
        needs,
        adds,
        deletes,
        adders,
    })
}

/// Takes the end into the entries of the atoms.
fn note(table: &mut [Option<Finish>], atoms: &[u32], f: Finish)
    requires { All (λ p. p < length table.old) atoms.now }
    ensures { IsNoted table.old atoms.now f table.new }
{
    for p in atoms {
        let place = *p as usize;
        table[place] = Some(later_of(table[place], f));
    }
}

/// Takes the end of an occurrence of the action into the records: when it ends in the new schedule, and when in the given plan.
pub fn take_end(records: &mut Records, action: &Action, now: Finish, before: Finish)
    requires sized { (n : ℕ) × IsSized n records.old × HasAtomsBelow n action.now }
    ensures { IsTaken records.old action.now now before records.new }
{
    note(&mut records.needs, action.pre.as_slice(), now);
    note(&mut records.adds, action.add.as_slice(), now);
    note(&mut records.deletes, action.dele.as_slice(), now);
    note(&mut records.adders, action.add.as_slice(), before);
}

/// Of a former one, if there is one, and the entries of the atoms, the one that ended last.
fn best_over(table: &[Option<Finish>], atoms: &[u32], former: Option<Finish>) -> Option<Finish>
    requires { All (λ p. p < length table.now) atoms.now }
    ensures { result ≡ best_over (entry table.now) atoms.now former }
{
    let mut best = former;
    for p in atoms {
        if let Some(f) = table[*p as usize] {
            best = Some(later_of(best, f));
        }
    }
    best
}

/// Of a former one, if there is one, and the entries of the atoms, by their ends in the schedule, the one that ended last.
fn best_moved(
    task: &Task,
    tight: &[Occ],
    table: &[Option<Finish>],
    atoms: &[u32],
    former: Option<Finish>,
) -> Option<Finish>
    requires tight { IsJudgeable task.now tight.now }
    requires atoms { All (λ p. p < length table.now) atoms.now }
    requires places { All (λ e. IfSome e (λ f. f.place < length tight.now)) table.now }
    ensures { result ≡ best_over (λ p. moved task.now tight.now (entry table.now p)) atoms.now former }
{
    let mut best = former;
    for p in atoms {
        if let Some(f) = table[*p as usize] {
            best = Some(later_of(best, finish_at(task, tight, f.place)));
        }
    }
    best
}

/// Of the occurrences that the records say have ended, and before which one of the action may not start, the one that ended last.
pub fn best_of(task: &Task, tight: &[Occ], records: &Records, action: &Action) -> Option<Finish>
    requires tight { IsJudgeable task.now tight.now }
    requires sized { (n : ℕ) × IsSized n records.now × HasAtomsBelow n action.now }
    requires places { All (λ e. IfSome e (λ f. f.place < length tight.now)) records.now.adders.items }
    ensures { result ≡ best_of task.now tight.now records.now action.now }
{
    let best = best_over(&records.needs, action.dele.as_slice(), None);
    let best = best_over(&records.adds, action.dele.as_slice(), best);
    let best = best_over(&records.deletes, action.pre.as_slice(), best);
    let best = best_over(&records.deletes, action.add.as_slice(), best);
    best_moved(task, tight, &records.adders, action.pre.as_slice(), best)
}
