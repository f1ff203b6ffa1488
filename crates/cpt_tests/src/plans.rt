//! Plans over ground task texts.

use crate::scene::{Case, File, expect, expect_all};
use std::alloc::Global;
use std::process::Abort;
use std::test::Fail;

/// Two actions that share a resource, which the second uses up.
pub const SHARED: File = (
    "t",
    "task 3 2\natom (r)\natom (p)\natom (q)\naction (a) 5\npre 0\nadd 1\ndel\naction (b) 3\npre 0\nadd 2\ndel 0\ninit 0\ngoal 1 2\n",
);

/// A key that one action makes and two others use up.
const KEY: File = (
    "t",
    "task 3 3\natom (k)\natom (g1)\natom (g2)\naction (u) 1\npre\nadd 0\ndel\naction (v1) 2\npre 0\nadd 1\ndel 0\naction (v2) 2\npre 0\nadd 2\ndel 0\ninit\ngoal 1 2\n",
);

pub const ASKED: &[&str] = &["validate-task", "t", "p"];

/// A plan text over the first task, and what is answered.
type Answered = (&'static str, u8, &'static str);

const OVER_SHARED: &[Answered] = &[
    // Valid, in whatever order and spelling.
    ("0: (a)\n5: (b)\n", 0, "valid 8\n"),
    ("5: (b)\n0: (a)\n", 0, "valid 8\n"),
    ("0: (a)\n7: (b)\n", 0, "valid 10\n"),
    ("0: (a)\n5: (b)", 0, "valid 8\n"),
    (
        "; a plan\r\n\r\n 000:\t( A )\t[5.00] ; first\r\n5.0:(b)[3]\r\n\t; done",
        0,
        "valid 8\n",
    ),
    ("0: (a)\n0: (a)\n5: (b)\n", 0, "valid 8\n"),
    // Invalid, by the first cause.
    ("", 1, "invalid: goal (p) is missing\n"),
    ("; nothing\n", 1, "invalid: goal (p) is missing\n"),
    ("0: (a)\n", 1, "invalid: goal (q) is missing\n"),
    ("0: (b)\n0: (a)\n", 1, "invalid: lines 1 and 2 overlap\n"),
    ("0: (a)\n4: (b)\n", 1, "invalid: lines 1 and 2 overlap\n"),
    (
        "\n0: (b)\n; then\n0: (b)\n",
        1,
        "invalid: lines 2 and 4 overlap\n",
    ),
    ("0: (b)\n3: (a)\n", 1, "invalid: line 2 lacks (r) at 3\n"),
    // Starts of a thousand million are judged at once.
    (
        "1000000000: (a)\n0: (a)\n",
        1,
        "invalid: goal (q) is missing\n",
    ),
    // A wrong duration.
    (
        "0: (a) [5]\n5: (b) [2]\n",
        1,
        "invalid: line 2 must last 3\n",
    ),
    (
        "0: (a) [1000000000000000000000000000000000000000]\n",
        1,
        "invalid: line 1 must last 5\n",
    ),
    // Faults, the least line first, and a duration last.
    ("0: (a) [6]\n5: (c)\n", 4, "fault: plan line 2: unknown\n"),
    ("0: (c)\n5 (b)\n", 4, "fault: plan line 1: unknown\n"),
    ("0: (a)\n5: b\n5: (c)\n", 4, "fault: plan line 2: line\n"),
    ("0.5: (a)\n", 4, "fault: plan line 1: line\n"),
    ("5.: (a)\n", 4, "fault: plan line 1: line\n"),
    ("-1: (a)\n", 4, "fault: plan line 1: line\n"),
    ("0: ()\n", 4, "fault: plan line 1: line\n"),
    ("0: (a)\0\n", 4, "fault: plan line 1: line\n"),
    ("1000000001: (a)\n", 6, "fault: limit start\n"),
    (
        "1000000000000000000000000000000000000000: (a)\n",
        6,
        "fault: limit start\n",
    ),
];

fn expect_answered(rt: &impl Abort, alloc: Global, answered: &Answered) -> Result<(), Fail> {
    let case = Case {
        words: ASKED,
        files: &[SHARED, ("p", answered.0)],
        status: answered.1,
        text: answered.2,
    };
    expect(rt, alloc, &case, 3)
}

fn expect_plans(rt: &impl Abort, alloc: Global, plans: &[Answered]) -> Result<(), Fail> {
    for answered in plans {
        expect_answered(rt, alloc, answered)?;
    }
    Ok(())
}

#[test]
fn plans_over_two_actions_that_share_a_resource(rt: HostRuntime) -> Result<(), Fail> {
    expect_plans(&rt, rt.alloc(), OVER_SHARED)
}

const OVER_KEY: [Case<'static>; 3] = [
    Case {
        words: ASKED,
        files: &[KEY, ("p", "0: (u)\n1: (v2)\n3: (u)\n4: (v1)\n")],
        status: 0,
        text: "valid 6\n",
    },
    Case {
        words: ASKED,
        files: &[KEY, ("p", "0: (u)\n1: (v1)\n3: (v2)\n")],
        status: 1,
        text: "invalid: line 3 lacks (k) at 3\n",
    },
    Case {
        words: ASKED,
        files: &[("t", "task 1 0\natom (g)\ninit 0\ngoal 0\n"), ("p", "")],
        status: 0,
        text: "valid 0\n",
    },
];

#[test]
fn plans_over_a_key_that_is_used_up(rt: HostRuntime) -> Result<(), Fail> {
    expect_all(&rt, rt.alloc(), &OVER_KEY)
}
