//! Each fault of a plan.

use crate::scene::{Answered, KEY, SHARED, expect_explained};
use std::test::Fail;

const OVER_KEY: [Answered; 6] = [
    (
        "0: (v1)\n",
        1,
        "invalid: line 1 lacks (k) at 0\ninvalid: goal (g2) is missing\nfaults 2\n",
    ),
    (
        "0: (u)\n1: (v1)\n1: (v2)\n",
        1,
        "invalid: lines 2 and 3 overlap\nfaults 1\n",
    ),
    (
        "0: (u)\n1: (v2)\n3: (u)\n4: (v1)\n",
        0,
        "valid 6\nfaults 0\n",
    ),
    // Each kind several times: three uses at once of a key that was never made.
    (
        "0: (v1)\n0: (v1)\n1: (v1)\n",
        1,
        "invalid: lines 1 and 2 overlap\ninvalid: lines 1 and 3 overlap\ninvalid: lines 2 and 3 overlap\ninvalid: line 1 lacks (k) at 0\ninvalid: line 2 lacks (k) at 0\ninvalid: line 3 lacks (k) at 1\ninvalid: goal (g2) is missing\nfaults 7\n",
    ),
    (
        "",
        1,
        "invalid: goal (g1) is missing\ninvalid: goal (g2) is missing\nfaults 2\n",
    ),
    // The key is gone when the first use ends, while the second still runs.
    (
        "0: (u)\n1: (v1)\n2: (v2)\n",
        1,
        "invalid: lines 2 and 3 overlap\ninvalid: line 3 lacks (k) at 3\nfaults 2\n",
    ),
];

#[test]
fn each_fault_and_no_other(rt: HostRuntime) -> Result<(), Fail> {
    for awaited in &OVER_KEY {
        expect_explained(&rt, rt.alloc(), KEY, *awaited)?;
    }
    Ok(())
}

// So many occurrences of an action that needs only what holds.
fn many(rt: &HostRuntime, count: usize, last: &str) -> Result<String, Fail> {
    let mut text = String::new(rt.alloc());
    for _ in 0..count {
        text.push_str("0: (a)\n")?;
    }
    text.push_str(last)?;
    Ok(text)
}

#[test]
fn long_plans_are_not_explained(rt: HostRuntime) -> Result<(), Fail> {
    let missing = "invalid: goal (q) is missing\nfaults 1\n";
    let limit = "fault: limit lines\n";
    let most = many(&rt, 1024, "")?;
    expect_explained(&rt, rt.alloc(), SHARED, (most.as_str(), 1, missing))?;
    let more = many(&rt, 1025, "")?;
    expect_explained(&rt, rt.alloc(), SHARED, (more.as_str(), 6, limit))?;
    // What is wrong with a line comes first.
    let wrong = many(&rt, 1025, "0: (a) [4]\n")?;
    let must_last = "invalid: line 1026 must last 5\n";
    expect_explained(&rt, rt.alloc(), SHARED, (wrong.as_str(), 1, must_last))?;
    Ok(())
}
