//! Ground task texts with a fault.

use crate::plans::ASKED;
use crate::scene::{Case, expect};
use std::alloc::{AllocError, Global};
use std::process::Abort;
use std::test::Fail;

/// A task text, and what is answered, whatever the plan.
type Answered = (&'static str, &'static str);

const FAULTY: &[Answered] = &[
    ("", "fault: task line 1: line\n"),
    ("task 0 0\n", "fault: task line 2: line\n"),
    ("task 0 0\ninit\ngoal", "fault: task line 3: line\n"),
    ("task 0 0\ninit\ngoal\n\n", "fault: task line 4: line\n"),
    ("task 0 0\ninit\ngoal\n\0", "fault: task line 4: line\n"),
    ("task 0 0\r\ninit\ngoal\n", "fault: task line 1: line\n"),
    ("task  0 0\ninit\ngoal\n", "fault: task line 1: line\n"),
    ("task 00 0\ninit\ngoal\n", "fault: task line 1: line\n"),
    ("task 2049 x\n", "fault: task line 1: line\n"),
    ("task 2049 0\n", "fault: limit atoms\n"),
    ("task 0 4097\n", "fault: limit actions\n"),
    (
        "task 1000000000000000000000000000000000000000 0\n",
        "fault: limit atoms\n",
    ),
    (
        "task 1 0\natom g\ninit\ngoal\n",
        "fault: task line 2: line\n",
    ),
    (
        "task 1 0\natom (G)\ninit\ngoal\n",
        "fault: task line 2: line\n",
    ),
    (
        "task 1 0\natom (g  h)\ninit\ngoal\n",
        "fault: task line 2: line\n",
    ),
    (
        "task 1 0\natom ()\ninit\ngoal\n",
        "fault: task line 2: line\n",
    ),
    (
        "task 2 0\natom (g)\natom (g)\ninit\ngoal\n",
        "fault: task line 3: line\n",
    ),
    (
        "task 1 0\natom (g)\ninit 1\ngoal\n",
        "fault: task line 3: line\n",
    ),
    (
        "task 1 0\natom (g)\ninit 0 0\ngoal\n",
        "fault: task line 3: line\n",
    ),
    (
        "task 1 0\natom (g)\ninit 00\ngoal\n",
        "fault: task line 3: line\n",
    ),
    (
        "task 0 1\naction (a) 0\npre\nadd\ndel\ninit\ngoal\n",
        "fault: task line 2: line\n",
    ),
    (
        "task 0 1\naction (a) 100001\npre\nadd\ndel\ninit\ngoal\n",
        "fault: task line 2: line\n",
    ),
    (
        "task 0 1\naction (a) 1\nadd\npre\ndel\ninit\ngoal\n",
        "fault: task line 3: line\n",
    ),
    (
        "task 0 2\naction (a) 1\npre\nadd\ndel\naction (a) 1\npre\nadd\ndel\ninit\ngoal\n",
        "fault: task line 6: line\n",
    ),
];

/// A task of 65 atoms and an action that needs them all.
fn long_list(alloc: Global) -> Result<String, AllocError> {
    let mut text = String::from_str(alloc, "task 65 1\n")?;
    for atom in 0..65 {
        let line = format!(in alloc; "atom (g{atom})\n")?;
        text.push_str(line.as_str())?;
    }
    text.push_str("action (a) 1\npre")?;
    for atom in 0..65 {
        let number = format!(in alloc; " {atom}")?;
        text.push_str(number.as_str())?;
    }
    text.push_str("\nadd\ndel\ninit\ngoal\n")?;
    Ok(text)
}

#[test]
fn a_list_of_sixty_five_preconditions_passes_the_limit(rt: HostRuntime) -> Result<(), Fail> {
    let text = long_list(rt.alloc())?;
    let case = Case {
        words: ASKED,
        files: &[("t", text.as_str()), ("p", "")],
        status: 6,
        text: "fault: limit list\n",
    };
    expect(&rt, rt.alloc(), &case, 64)
}

fn expect_answered(rt: &impl Abort, alloc: Global, answered: &Answered) -> Result<(), Fail> {
    let limit = answered.1.starts_with("fault: limit");
    let case = Case {
        words: ASKED,
        files: &[("t", answered.0), ("p", "no plan")],
        status: if limit { 6 } else { 4 },
        text: answered.1,
    };
    expect(rt, alloc, &case, 64)
}

fn expect_faults(rt: &impl Abort, alloc: Global, texts: &[Answered]) -> Result<(), Fail> {
    for answered in texts {
        expect_answered(rt, alloc, answered)?;
    }
    Ok(())
}

#[test]
fn the_first_faulty_line_of_a_task_is_answered(rt: HostRuntime) -> Result<(), Fail> {
    expect_faults(&rt, rt.alloc(), FAULTY)
}
