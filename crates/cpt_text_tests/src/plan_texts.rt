//! What no clause says: that the texts mean what their writers mean, and that the calls succeed.

ghost use Rattle.std.specs.Prelude.{◌≡◌, ◌∷◌, [], IfOk, if◌then◌else◌, length};
ghost use Rattle.std.specs.Str.{bytes_eq};
ghost use Rattle.cpt_task.specs.Timeline.{IsPlan};
ghost use Rattle.cpt_plan_text.specs.declared.roster.Found.TheVariants.{Unknown, Unreachable};

use cpt_io::{MemSink, Sink};
use cpt_plan_text::{
    Found, PlanText, PlanTextError, Roster, print_plan, read_plan, tasks_know_actions,
};
use cpt_task::{Action, Ids, List, Memory, Name, Occ, Task};
use std::alloc::{AllocError, Global};
use std::process::Abort;
use std::test::Fail;

/// A roster that knows no action, and one that can never start.
struct Yard;

impl Roster for Yard {
    ghost finds = { λ _ name. if bytes_eq name (40 ∷ 122 ∷ 41 ∷ []) then Unreachable 7 else Unknown };

    fn find(&self, name: &[u8]) -> Found {
        if name == b"(z)".as_slice() {
            Found::Unreachable(7)
        } else {
            Found::Unknown
        }
    }
}

fn name(alloc: Global, text: &str) -> Result<Name, AllocError> {
    Ok(List::from_vec(text.as_bytes().to_vec(alloc)?))
}

fn ids(alloc: Global, numbers: &[u32]) -> Result<Ids, Memory> {
    Ids::from_vec(numbers.to_vec(alloc)?).ok_or(Memory)
}

fn three_atoms(alloc: Global) -> Result<Vec<Name>, AllocError> {
    let (r, p, q) = (
        name(alloc, "(r)")?,
        name(alloc, "(p)")?,
        name(alloc, "(q)")?,
    );
    Ok(Vec::from_array(alloc, [r, p, q])?)
}

fn action(
    alloc: Global,
    called: &str,
    dur: u32,
    adds: u32,
    deletes: &[u32],
) -> Result<Action, Memory> {
    Ok(Action {
        name: name(alloc, called)?,
        dur,
        pre: ids(alloc, &[0])?,
        add: ids(alloc, &[adds])?,
        dele: ids(alloc, deletes)?,
    })
}

// The actions (a), which lasts 5, and (b), which lasts 3 and deletes what (a) needs.
fn two_actions(alloc: Global) -> Result<Task, Memory>
    ensures { IfOk result (λ task. length task.actions ≡ 2) }
{
    let atoms = three_atoms(alloc)?;
    if atoms.len() >= 100 {
        return Err(Memory);
    }
    let a = action(alloc, "(a)", 5, 1, &[])?;
    let b = action(alloc, "(b)", 3, 2, &[0])?;
    let actions = Vec::from_array(alloc, [a, b])?;
    match Task::build(atoms, actions, ids(alloc, &[0])?, ids(alloc, &[1, 2])?) {
        Ok(task) => Ok(task),
        Err(_) => Err(Memory),
    }
}

// Each occurrence as ACTION@START#LINE.
fn told_plan(alloc: Global, plan: &PlanText) -> Result<String, AllocError> {
    let mut text = String::new(alloc);
    for (o, line) in plan.occs.as_slice().iter().zip(plan.lines.as_slice()) {
        let occurrence = format!(in alloc; "{}@{}#{} ", o.act, o.start, line)?;
        text.push_str(occurrence.as_str())?;
    }
    Ok(text)
}

// Whether the plan, or the fault, is told so.
fn is_told(
    alloc: Global,
    read: &Result<PlanText, PlanTextError>,
    wanted: &str,
) -> Result<bool, AllocError> {
    let text = match read {
        Ok(plan) => told_plan(alloc, plan)?,
        Err(e) => format!(in alloc; "{e:?}")?,
    };
    Ok(text.as_str() == wanted)
}

/// A plan text, and how it is read.
type Case = (&'static str, &'static str);

// Plan texts over the two actions.
const OVER_THE_TASK: [Case; 24] = [
    ("", ""),
    ("0: (a)\n5: (b)\n", "0@0#1 1@5#2 "),
    ("0: (a)", "0@0#1 "),
    ("0: (A)\n", "0@0#1 "),
    (
        "0.000: (a) [5.0]\n005 : ( b )[ 3.00 ] ; late",
        "0@0#1 1@5#2 ",
    ),
    (
        "\t0:(a)\r\n\r\n; x\n \t; x\n5:\t(B)\t[3]\r\n",
        "0@0#1 1@5#5 ",
    ),
    (
        "0: (a) [0000000000000000000000000000000000000005]\n",
        "0@0#1 ",
    ),
    (
        "0: (a) [1000000000000000000000000000000000000000]\n",
        "Duration(1, 5)",
    ),
    (
        "1000000000000000000000000000000000000000: (a)\n",
        "Limit(Start)",
    ),
    ("1000000000: (a)\n", "0@1000000000#1 "),
    ("1000000001: (a)\n", "Limit(Start)"),
    ("1000000001: (c)\n", "Unknown(1)"),
    ("0.5: (a)\n", "Line(1)"),
    ("5.: (a)\n", "Line(1)"),
    ("0: ()\n", "Line(1)"),
    ("0 (a)\n", "Line(1)"),
    ("0: (a) x\n", "Line(1)"),
    ("0: (a) [5\n", "Line(1)"),
    ("0: (a]b[:)\n", "Unknown(1)"),
    ("0: (a b)\n0 (a)\n", "Unknown(1)"),
    ("0: (b) [4]\n", "Duration(1, 3)"),
    ("0: (a) [4]\n0: (b) [4]\n", "Duration(1, 5)"),
    ("0: (a) [4]\n0: (c)\n", "Unknown(2)"),
    ("0: (c)\n0: (a) [4]\n", "Unknown(1)"),
];

// Plan texts over the yard.
const OVER_THE_YARD: [Case; 5] = [
    ("0: (z)\n", "Unreachable(1)"),
    ("0: (z) [7]\n", "Unreachable(1)"),
    ("0: (z) [6]\n", "Duration(1, 7)"),
    ("0: (z)\n0: (z) [6]\n", "Unreachable(1)"),
    ("0: (z)\n0: (y)\n", "Unknown(2)"),
];

// Whether the text is read so over the task.
fn reads_so(alloc: Global, task: &Task, text: &str, wanted: &str) -> Result<bool, AllocError> {
    if text.len() >= 100 {
        return Ok(false);
    }
    tasks_know_actions();
    is_told(
        alloc,
        &read_plan(alloc, task, task, text.as_bytes()),
        wanted,
    )
}

// Whether the text is read so over the yard.
fn yard_reads_so(alloc: Global, task: &Task, text: &str, wanted: &str) -> Result<bool, AllocError> {
    if text.len() >= 100 {
        return Ok(false);
    }
    is_told(
        alloc,
        &read_plan(alloc, task, &Yard, text.as_bytes()),
        wanted,
    )
}

fn expect_cases(
    rt: &impl Abort,
    alloc: Global,
    cases: &[Case],
    over_the_task: bool,
) -> Result<(), Fail> {
    let task = two_actions(alloc)?;
    for (text, wanted) in cases {
        let is_so = if over_the_task {
            reads_so(alloc, &task, text, wanted)?
        } else {
            yard_reads_so(alloc, &task, text, wanted)?
        };
        assert!(rt; is_so, "at {text}");
    }
    Ok(())
}

#[test]
fn reads_plan_texts(rt: HostRuntime) -> Result<(), Fail> {
    expect_cases(&rt, rt.alloc(), &OVER_THE_TASK, true)
}

#[test]
fn reads_plan_texts_over_a_roster(rt: HostRuntime) -> Result<(), Fail> {
    expect_cases(&rt, rt.alloc(), &OVER_THE_YARD, false)
}

const SHUFFLED: [Occ; 3] = [
    Occ { act: 1, start: 5 },
    Occ { act: 0, start: 5 },
    Occ { act: 0, start: 0 },
];

fn put_plan(alloc: Global, task: &Task, plan: &[Occ], out: &mut MemSink) -> Result<(), Fail>
    requires plan { IsPlan task.now plan.now }
    requires faults { ⟦<MemSink as Sink>⟧.faults out.old ≡ 0 }
    ensures { IfOk result (λ u. ⟦<MemSink as Sink>⟧.faults out.new ≡ 0) }
{
    print_plan(alloc, task, plan, out)?;
    Ok(())
}

fn is_written(out: &MemSink, text: &str) -> bool {
    out.written() == text.as_bytes()
}

// Whether the plan is printed, and nothing is for a plan without occurrences.
fn is_printed(alloc: Global, text: &str) -> Result<bool, Fail> {
    let task = two_actions(alloc)?;
    let mut out = MemSink::new(alloc, 100, Vec::new(alloc))?;
    put_plan(alloc, &task, &SHUFFLED, &mut out)?;
    if !is_written(&out, text) {
        return Ok(false);
    }
    put_plan(alloc, &task, &[], &mut out)?;
    Ok(is_written(&out, text))
}

#[test]
fn prints_plans(rt: HostRuntime) -> Result<(), Fail> {
    let is_so = is_printed(rt.alloc(), "0: (a) [5]\n5: (a) [5]\n5: (b) [3]\n")?;
    assert!(rt; is_so);
    Ok(())
}
