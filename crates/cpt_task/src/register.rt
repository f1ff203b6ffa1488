//! Which atoms the occurrences of a plan touch when: sorted marks, in which what is near in time is found quickly.

ghost use Rattle.std.specs.Prelude.{◌≡◌, ◌<◌, ◌≤◌, ◌+◌, ◌^◌, ◌++◌, true, false, IsTrue, OnOk, IfOk, MatchOption, All, length};
ghost use Rattle.std.specs.List.Sorted.{IsPermutation, IsPartitionPoint};
ghost use Rattle.cpt_task.specs.Judgeable.{IsJudgeable, IsJudgeableAt};
ghost use Rattle.cpt_task.specs.Register.{atoms_in, moment_of, marks_at, marks_of, is_before, IsMarkSorted, IsMarks, IsRegister, IsTimetable, IsAlone, NoMarkUpTo, IsLastMark};
ghost use Rattle.cpt_task.specs.Timeline.{end_of, is_in, holds_at, HoldsThen};

use crate::memory::Memory;
use crate::plan::Occ;
use crate::task::{Action, Task};
use crate::timeline::{action_at, end_at, holds};
use std::alloc::Global;

/// A list of an action.
#[derive(Clone, Copy)]
pub enum Role {
    Pre,
    Add,
    Dele,
}

/// A border of an occurrence.
#[derive(Clone, Copy)]
pub enum Border {
    Start,
    End,
}

/// A moment at which an occurrence that has the atom in a list starts or ends. Marks are ordered by atom first.
#[derive(Clone, Copy, PartialEq, Eq, PartialOrd, Ord)]
pub struct Mark {
    pub atom: u32,
    pub time: u64,
}

/// When the occurrences that have an atom in one list start and end, each sorted.
#[derive(Drop)]
pub struct Register {
    pub starts: Vec<Mark>,
    pub ends: Vec<Mark>,
}

/// A register for each list.
#[derive(Drop)]
pub struct Timetable {
    pub pre: Register,
    pub add: Register,
    pub dele: Register,
}

fn atoms_of(role: Role, action: &Action) -> &[u32]
    ensures { result.now ≡ atoms_in role action.now }
{
    match role {
        Role::Pre => action.pre.as_slice(),
        Role::Add => action.add.as_slice(),
        Role::Dele => action.dele.as_slice(),
    }
}

fn moment_at(task: &Task, o: &Occ, border: Border) -> u64
    requires { IsJudgeableAt task.now o.now }
    ensures { result ≡ moment_of task.now border o.now }
{
    match border {
        Border::Start => o.start,
        Border::End => end_at(task, o),
    }
}

fn note(marks: &mut Vec<Mark>, atoms: &[u32], time: u64) -> Result<(), Memory>
    ensures { OnOk result (marks.new.items ≡ marks.old.items ++ marks_at time atoms.now) }
{
    for atom in atoms {
        marks.push(Mark { atom: *atom, time })?;
    }
    Ok(())
}

fn all_marks(
    alloc: Global,
    task: &Task,
    plan: &[Occ],
    role: Role,
    border: Border,
) -> Result<Vec<Mark>, Memory>
    requires { IsJudgeable task.now plan.now }
    ensures marks { IfOk result (λ marks. marks.items ≡ marks_of task.now role border plan.now) }
    ensures lasting { OnOk result (All (λ o. o.start < end_of task.now o) plan.now) }
{
    let mut marks = Vec::new(alloc);
    for o in plan {
        note(
            &mut marks,
            atoms_of(role, action_at(task, o)),
            moment_at(task, o, border),
        )?;
    }
    Ok(marks)
}

fn sorted_marks(
    alloc: Global,
    task: &Task,
    plan: &[Occ],
    role: Role,
    border: Border,
) -> Result<Vec<Mark>, Memory>
    requires { IsJudgeable task.now plan.now }
    ensures { IfOk result (λ marks. IsMarks task.now plan.now role border marks.items) }
{
    let mut marks = all_marks(alloc, task, plan, role, border)?;
    marks.sort()?;
    Ok(marks)
}

fn register_of(alloc: Global, task: &Task, plan: &[Occ], role: Role) -> Result<Register, Memory>
    requires { IsJudgeable task.now plan.now }
    ensures { IfOk result (IsRegister task.now plan.now role) }
{
    let starts = sorted_marks(alloc, task, plan, role, Border::Start)?;
    let ends = sorted_marks(alloc, task, plan, role, Border::End)?;
    Ok(Register { starts, ends })
}

/// The timetable of a plan.
pub fn timetable_of(alloc: Global, task: &Task, plan: &[Occ]) -> Result<Timetable, Memory>
    requires { IsJudgeable task.now plan.now }
    ensures { IfOk result (IsTimetable task.now plan.now) }
{
    let pre = register_of(alloc, task, plan, Role::Pre)?;
    let add = register_of(alloc, task, plan, Role::Add)?;
    let dele = register_of(alloc, task, plan, Role::Dele)?;
    Ok(Timetable { pre, add, dele })
}

/// How many marks stand before that atom at that moment.
fn rank(marks: &[Mark], atom: u32, time: u64) -> usize
    requires { IsMarkSorted marks.now }
    ensures within { result ≤ length marks.now }
    ensures parted { IsPartitionPoint (λ m. is_before atom time m ≡ true) (λ m. is_before atom time m ≡ false) marks.now result }
{
    let bound = Mark { atom, time };
    marks.partition_point(|m| *m < bound)
}

fn is_found(xs: &[u32], p: u32) -> bool
    ensures { IsTrue result → is_in p xs.now ≡ true }
{
    xs.binary_search(&p).is_ok()
}

/// Whether more occurrences than that at the place itself have the atom in the list and overlap it.
fn has_company(
    task: &Task,
    plan: &[Occ],
    register: &Register,
    role: Role,
    i: usize,
    atom: u32,
) -> bool
    requires plan { IsJudgeable task.now plan.now }
    requires within { i < length plan.now }
    requires register { IsRegister task.now plan.now role register.now }
    ensures { result ≡ false → IsAlone task.now plan.now role i atom }
{
    let o = &plan[i];
    let own = usize::from(is_found(atoms_of(role, action_at(task, o)), atom));
    let begun = rank(&register.starts, atom, end_at(task, o));
    let ended = rank(&register.ends, atom, o.start + 1);
    begun.saturating_sub(ended) > own
}

/// Whether one of these atoms, which the occurrence `i` has in one of its lists, stands in the list of the role of another occurrence that overlaps `i`.
pub fn some_has_company(
    task: &Task,
    plan: &[Occ],
    register: &Register,
    role: Role,
    i: usize,
    atoms: &[u32],
) -> bool
    requires plan { IsJudgeable task.now plan.now }
    requires within { i < length plan.now }
    requires register { IsRegister task.now plan.now role register.now }
    ensures { result ≡ false → All (IsAlone task.now plan.now role i) atoms.now }
{
    for atom in atoms {
        if has_company(task, plan, register, role, i, *atom) {
            return true;
        }
    }
    false
}

/// The last moment up to the given one at which an occurrence ends that has the atom in the list.
fn last_end(register: &Register, atom: u32, time: u64) -> Option<u64>
    requires sorted { IsMarkSorted register.now.ends.items }
    requires short { time < 2 ^ 63 }
    ensures { MatchOption result (NoMarkUpTo register.now.ends.items atom time) (IsLastMark register.now.ends.items atom time) }
{
    let ended = rank(&register.ends, atom, time + 1);
    if ended == 0 {
        return None;
    }
    let mark = register.ends[ended - 1];
    if mark.atom == atom {
        Some(mark.time)
    } else {
        None
    }
}

/// Whether it is sure from the last ends alone that the atom holds at that moment.
fn surely_holds(task: &Task, plan: &[Occ], times: &Timetable, time: u64, p: u32) -> bool
    requires times { IsTimetable task.now plan.now times.now }
    requires short { time < 2 ^ 63 }
    ensures { IsTrue result → HoldsThen task.now plan.now time p }
{
    match (
        last_end(&times.dele, p, time),
        last_end(&times.add, p, time),
    ) {
        (None, None) => is_found(task.init(), p),
        (None, Some(_)) => true,
        (Some(_), None) => false,
        (Some(gone), Some(came)) => gone <= came,
    }
}

/// Whether the atom holds at that moment.
pub fn holds_then(task: &Task, plan: &[Occ], times: &Timetable, time: u64, p: u32) -> bool
    requires plan { IsJudgeable task.now plan.now }
    requires times { IsTimetable task.now plan.now times.now }
    requires short { time < 2 ^ 63 }
    ensures { result ≡ holds_at task.now plan.now time p }
{
    surely_holds(task, plan, times, time, p) || holds(task, plan, time, p)
}
