//! Plans at their earliest.

use crate::scene::{Answered, KEY, PAIRS, SHARED, SIDES, STILL, expect_tightened};
use std::test::Fail;

#[test]
fn the_longer_side_is_critical(rt: HostRuntime) -> Result<(), Fail> {
    let awaited: Answered = (
        "5: (a)\n0: (c)\n10: (b)\n",
        0,
        "0: (c) [10]\n0: (a) [4]\n10: (b) [1]\n; makespan 11\n; critical 0: (c)\n; critical 10: (b)\n",
    );
    expect_tightened(&rt, rt.alloc(), SIDES, awaited)
}

const SHARING: [Answered; 5] = [
    // What deletes comes behind what needs.
    (
        "3: (a)\n20: (b)\n",
        0,
        "0: (a) [5]\n5: (b) [3]\n; makespan 8\n; critical 0: (a)\n; critical 5: (b)\n",
    ),
    // The least of two places that end then is the one before.
    (
        "9: (a)\n3: (a)\n20: (b)\n",
        0,
        "0: (a) [5]\n0: (a) [5]\n5: (b) [3]\n; makespan 8\n; critical 0: (a)\n; critical 5: (b)\n",
    ),
    // A plan that is not valid is judged.
    ("0: (b)\n0: (a)\n", 1, "invalid: lines 1 and 2 overlap\n"),
    ("0: (a) [4]\n", 1, "invalid: line 1 must last 5\n"),
    ("0: (z)\n", 4, "fault: plan line 1: unknown\n"),
];

#[test]
fn what_is_used_up_waits(rt: HostRuntime) -> Result<(), Fail> {
    for awaited in &SHARING {
        expect_tightened(&rt, rt.alloc(), SHARED, *awaited)?;
    }
    Ok(())
}

const PAIRED: [Answered; 2] = [
    (
        "2: (m1)\n7: (n1)\n1: (m2)\n9: (n2)\n",
        0,
        "0: (m1) [3]\n0: (m2) [4]\n3: (n1) [3]\n4: (n2) [2]\n; makespan 6\n; critical 0: (m1)\n; critical 3: (n1)\n",
    ),
    (
        "1: (m2)\n9: (n2)\n2: (m1)\n7: (n1)\n",
        0,
        "0: (m1) [3]\n0: (m2) [4]\n3: (n1) [3]\n4: (n2) [2]\n; makespan 6\n; critical 0: (m2)\n; critical 4: (n2)\n",
    ),
];

// Of two that end last, the one that stands first in the plan ends the chain.
#[test]
fn independent_chains_start_at_once(rt: HostRuntime) -> Result<(), Fail> {
    for awaited in &PAIRED {
        expect_tightened(&rt, rt.alloc(), PAIRS, *awaited)?;
    }
    Ok(())
}

// Each use of the key waits for the key to be made again, and that for the former use: four occurrences in a row.
#[test]
fn repeated_actions_keep_their_order(rt: HostRuntime) -> Result<(), Fail> {
    let awaited: Answered = (
        "20: (v1)\n10: (u)\n3: (v2)\n2: (u)\n",
        0,
        "0: (u) [1]\n1: (v2) [2]\n3: (u) [1]\n4: (v1) [2]\n; makespan 6\n; critical 0: (u)\n; critical 1: (v2)\n; critical 3: (u)\n; critical 4: (v1)\n",
    );
    expect_tightened(&rt, rt.alloc(), KEY, awaited)
}

#[test]
fn the_empty_plan_stays(rt: HostRuntime) -> Result<(), Fail> {
    expect_tightened(&rt, rt.alloc(), STILL, ("", 0, "; makespan 0\n"))
}
