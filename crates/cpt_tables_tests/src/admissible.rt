//! Whether tables are admissible: known faults of small tasks.

ghost use Rattle.std.specs.Prelude.{◌≡◌, ◌<◌, IfSome};
ghost use Rattle.cpt_tables.specs.Spans.{IsBelow};
ghost use Rattle.cpt_tables.specs.Shapes.{FitsPairs, FitsDists};

use crate::tasks::{action, ids};
use cpt_tables::{
    DistFault, DistTable, PairFault, PairTable, admissible_dists, admissible_pairs, set_span,
};
use cpt_task::{Action, Ids, List, Span, Task};
use std::alloc::Global;

// Pair tables of zeros for the task.
fn zero_pairs(alloc: Global, task: &Task) -> Option<PairTable>
    ensures { IfSome result (FitsPairs task.now) }
{
    let count = task.atoms().len();
    if count > 2048 {
        return None;
    }
    PairTable::filled(alloc, count as u32, Span::At(0)).ok()
}

// Distance tables of zeros for the task.
fn zero_dists(alloc: Global, task: &Task) -> Option<DistTable>
    ensures { IfSome result (FitsDists task.now) }
{
    let rows = task.actions().len();
    let count = task.atoms().len();
    if rows > 4096 || count > 2048 {
        return None;
    }
    DistTable::filled(alloc, rows as u32, count as u32, Span::At(0)).ok()
}

// Sets the value of two atoms of the task.
fn put(task: &Task, pairs: &mut PairTable, p: u32, q: u32, value: Span)
    requires fits { FitsPairs task.now pairs.old }
    requires small { IsBelow 1000000000000000 value }
    ensures { FitsPairs task.now pairs.new }
{
    if p < pairs.atoms() && q < pairs.atoms() {
        pairs.set(p, q, value);
    }
}

// Sets the distance of an action of the task to an atom.
fn put_dist(task: &Task, dists: &mut DistTable, act: u32, atom: u32, value: Span)
    requires fits { FitsDists task.now dists.old }
    requires small { IsBelow 1000000000000000 value }
    ensures { FitsDists task.now dists.new }
{
    if act < dists.actions() && atom < dists.atoms() {
        dists.set(act, atom, value);
    }
}

// Three atoms and these actions.
fn of_three(alloc: Global, actions: Vec<Action>, init: &[u32]) -> Option<Task> {
    if actions.len() > 3 {
        return None;
    }
    let name = || List::from_vec(Vec::new(alloc));
    let atoms = vec![in alloc; name(), name(), name()].ok()?;
    Task::build(atoms, actions, ids(alloc, init)?, ids(alloc, &[2])?).ok()
}

// The second action needs and deletes what the first needs.
fn in_turn(alloc: Global) -> Option<Task> {
    let first = action(alloc, 5, &[0], &[1], &[])?;
    let second = action(alloc, 3, &[0], &[2], &[0])?;
    of_three(alloc, vec![in alloc; first, second].ok()?, &[0])
}

// Two actions that may run side by side, and one that needs what they add.
fn side_by_side(alloc: Global) -> Option<Task> {
    let first = action(alloc, 10, &[], &[0], &[])?;
    let second = action(alloc, 4, &[], &[1], &[])?;
    let third = action(alloc, 1, &[0, 1], &[2], &[])?;
    of_three(alloc, vec![in alloc; first, second, third].ok()?, &[])
}

// The faults of its greatest table, and of that table with a greater value of the last two atoms.
fn faults_in_turn(alloc: Global) -> Option<(Option<PairFault>, Option<PairFault>)> {
    let task = in_turn(alloc)?;
    let mut pairs = zero_pairs(alloc, &task)?;
    put(&task, &mut pairs, 0, 1, Span::At(5));
    put(&task, &mut pairs, 2, 0, Span::Never);
    put(&task, &mut pairs, 1, 1, Span::At(5));
    put(&task, &mut pairs, 2, 1, Span::At(8));
    put(&task, &mut pairs, 2, 2, Span::At(3));
    let fine = admissible_pairs(&task, &pairs);
    put(&task, &mut pairs, 1, 2, Span::At(9));
    Some((fine, admissible_pairs(&task, &pairs)))
}

// The greatest table of the task of actions side by side.
fn pairs_side_by_side(alloc: Global, task: &Task) -> Option<PairTable>
    ensures { IfSome result (FitsPairs task.now) }
{
    let mut pairs = zero_pairs(alloc, task)?;
    put(task, &mut pairs, 0, 0, Span::At(10));
    put(task, &mut pairs, 0, 1, Span::At(10));
    put(task, &mut pairs, 1, 1, Span::At(4));
    put(task, &mut pairs, 0, 2, Span::At(11));
    put(task, &mut pairs, 1, 2, Span::At(11));
    put(task, &mut pairs, 2, 2, Span::At(11));
    Some(pairs)
}

fn faults_side_by_side(alloc: Global) -> Option<(Option<PairFault>, Option<PairFault>)> {
    let task = side_by_side(alloc)?;
    let mut pairs = pairs_side_by_side(alloc, &task)?;
    let fine = admissible_pairs(&task, &pairs);
    put(&task, &mut pairs, 0, 1, Span::At(14));
    Some((fine, admissible_pairs(&task, &pairs)))
}

fn dist_faults(alloc: Global) -> Option<(Option<DistFault>, Option<DistFault>)> {
    let task = side_by_side(alloc)?;
    let pairs = pairs_side_by_side(alloc, &task)?;
    let mut dists = zero_dists(alloc, &task)?;
    let fine = admissible_dists(&task, &pairs, &dists);
    put_dist(&task, &mut dists, 1, 0, Span::At(10));
    Some((fine, admissible_dists(&task, &pairs, &dists)))
}

fn spans(alloc: Global) -> Option<(Span, Span)> {
    let mut pairs = PairTable::filled(alloc, 3, Span::At(7)).ok()?;
    pairs.set(2, 0, Span::At(9));
    Some((set_span(&pairs, &[]), set_span(&pairs, &[0, 1, 2])))
}

#[test]
fn pairs_have_their_least_fault(rt: HostRuntime) {
    let of = |p, q, most| Some(PairFault { p, q, most });
    assert_eq!(rt;
        faults_in_turn(rt.alloc()),
        Some((None, of(1, 2, Span::At(8))))
    );
    assert_eq!(rt;
        faults_side_by_side(rt.alloc()),
        Some((None, of(0, 1, Span::At(10))))
    );
    assert_eq!(rt; spans(rt.alloc()), Some((Span::At(0), Span::At(9))));
}

#[test]
fn distances_have_their_least_fault(rt: HostRuntime) {
    let late = DistFault {
        act: 1,
        atom: 0,
        most: Span::At(0),
    };
    assert_eq!(rt; dist_faults(rt.alloc()), Some((None, Some(late))));
}
