//! Whole certificates, texts that are none, and limits on the bytes that are taken.

use crate::certs::{CHAIN, EASY, KEY, LOST, MIXED, NEVER};
use crate::changed::{Change, text_of};
use crate::expected::{accepted, expect, rejected};
use crate::scene::{CHAIN_TASK, EASY_TASK, KEY_TASK, LOST_TASK, MIXED_TASK};
use cpt_cert::{Claim, Version};
use cpt_cert_accept::Why;
use cpt_check::{CheckError, Judged};
use std::alloc::Global;
use std::process::Abort;
use std::test::Fail;

/// A certificate is accepted in whatever pieces it comes.
fn expect_accepted(
    rt: &impl Abort,
    alloc: Global,
    task: &[&str],
    lines: &[&str],
    wanted: Judged,
) -> Result<(), Fail> {
    let text = text_of(alloc, lines, Change::None)?;
    for piece in [1, 2, 3, 7, 64, 1_000_000] {
        expect(
            rt,
            alloc,
            task,
            text.as_slice(),
            (piece, 1_000_000),
            Ok(wanted),
        )?;
    }
    Ok(())
}

#[test]
fn spent_certificates_are_accepted(rt: HostRuntime) -> Result<(), Fail> {
    let first = Claim::Spent {
        refuted: 5,
        nodes: 7,
    };
    let wanted = accepted(Version::One, first);
    expect_accepted(&rt, rt.alloc(), &MIXED_TASK, &MIXED, wanted)?;
    let second = Claim::Spent {
        refuted: 5,
        nodes: 6,
    };
    let wanted = accepted(Version::Two, second);
    expect_accepted(&rt, rt.alloc(), &KEY_TASK, &KEY, wanted)
}

#[test]
fn certificates_of_plans_and_of_none_are_accepted(rt: HostRuntime) -> Result<(), Fail> {
    let alloc = rt.alloc();
    let wanted = accepted(Version::One, Claim::Optimal(3));
    expect_accepted(&rt, alloc, &CHAIN_TASK, &CHAIN, wanted)?;
    let wanted = accepted(Version::Two, Claim::Never);
    expect_accepted(&rt, alloc, &LOST_TASK, &LOST, wanted)?;
    let wanted = accepted(Version::One, Claim::Optimal(0));
    expect_accepted(&rt, alloc, &EASY_TASK, &EASY, wanted)
}

/// Expects the answer to a text over the task whose goal holds at the start.
fn expect_easy(
    rt: &impl Abort,
    alloc: Global,
    text: &[u8],
    limits: (usize, u64),
    wanted: Result<Judged, CheckError>,
) -> Result<(), Fail> {
    expect(rt, alloc, &EASY_TASK, text, limits, wanted)
}

#[test]
fn a_first_line_that_names_another_version(rt: HostRuntime) -> Result<(), Fail> {
    let other = text_of(rt.alloc(), &EASY, Change::Line(1, "cpt 3"))?;
    let none = Ok(rejected(None, 1, Why::Grammar));
    expect_easy(&rt, rt.alloc(), other.as_slice(), (7, 1000), none)
}

#[test]
fn a_first_line_that_names_no_version(rt: HostRuntime) -> Result<(), Fail> {
    let alloc = rt.alloc();
    let none = Ok(rejected(None, 1, Why::Grammar));
    expect_easy(&rt, alloc, b"cpt 1", (7, 1000), none)?;
    expect_easy(&rt, alloc, b"", (7, 1000), none)?;
    let named = Ok(rejected(Some(Version::One), 2, Why::Grammar));
    expect_easy(&rt, alloc, b"cpt 1\n", (7, 1000), named)
}

#[test]
fn a_text_that_is_too_long(rt: HostRuntime) -> Result<(), Fail> {
    let text = text_of(rt.alloc(), &EASY, Change::None)?;
    let whole = Ok(accepted(Version::One, Claim::Optimal(0)));
    expect_easy(&rt, rt.alloc(), text.as_slice(), (7, 42), whole)?;
    let too_long = Err(CheckError::TooLong);
    expect_easy(&rt, rt.alloc(), text.as_slice(), (7, 41), too_long)
}

/// Over the first limit the text is too long, and over the next one its fault is told.
fn expect_limit(
    rt: &impl Abort,
    alloc: Global,
    task: &[&str],
    text: &[u8],
    limit: u32,
    fault: (u64, Why),
) -> Result<(), Fail> {
    let (line, why) = fault;
    let limit = u64::from(limit);
    let too_long = Err(CheckError::TooLong);
    expect(rt, alloc, task, text, (64, limit), too_long)?;
    let wanted = rejected(Some(Version::One), line, why);
    expect(rt, alloc, task, text, (64, limit + 1), Ok(wanted))
}

#[test]
fn a_fault_in_a_line_that_ends_within_the_bytes_that_are_taken_is_told(
    rt: HostRuntime,
) -> Result<(), Fail> {
    let change = Change::Line(2, "claim optimal 01");
    let text = text_of(rt.alloc(), &EASY, change)?;
    let fault = (2, Why::Grammar);
    expect_limit(&rt, rt.alloc(), &EASY_TASK, text.as_slice(), 22, fault)
}

#[test]
fn a_plan_is_judged_where_its_line_ends_within_the_limit(rt: HostRuntime) -> Result<(), Fail> {
    let change = Change::Line(2, "claim optimal 4");
    let text = text_of(rt.alloc(), &CHAIN, change)?;
    let fault = (4, Why::Plan);
    expect_limit(&rt, rt.alloc(), &CHAIN_TASK, text.as_slice(), 45, fault)
}

#[test]
fn a_pair_is_judged_where_its_line_ends_within_the_limit(rt: HostRuntime) -> Result<(), Fail> {
    let change = Change::Line(5, "h 0 2 3 3 3");
    let text = text_of(rt.alloc(), &MIXED, change)?;
    let fault = (5, Why::Pair);
    expect_limit(&rt, rt.alloc(), &MIXED_TASK, text.as_slice(), 76, fault)
}

#[test]
fn a_goal_is_judged_where_the_table_ends_within_the_limit(rt: HostRuntime) -> Result<(), Fail> {
    let text = text_of(rt.alloc(), &NEVER, Change::None)?;
    let fault = (2, Why::Goal);
    expect_limit(&rt, rt.alloc(), &EASY_TASK, text.as_slice(), 35, fault)
}

/// What stands behind `end` is a fault once its line has ended.
#[test]
fn what_stands_behind_the_end_is_judged_within_the_limit(rt: HostRuntime) -> Result<(), Fail> {
    let mut text = text_of(rt.alloc(), &EASY, Change::None)?;
    text.extend_from_slice(b"x\ny")?;
    let fault = (6, Why::Grammar);
    expect_limit(&rt, rt.alloc(), &EASY_TASK, text.as_slice(), 43, fault)
}
