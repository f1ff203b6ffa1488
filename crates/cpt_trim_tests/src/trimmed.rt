//! Certificates that are trimmed.

ghost use Rattle.std.specs.Prelude.{◌≤◌, length};

use crate::scene::{
    CHAIN, CHAIN_TASK, CROWDED, FAULTY, LONG_CHAIN, MIXED, MIXED_TASK, SHARED, SHARED_TASK, TRUCKS,
    TRUCKS_TASK, task_of, text_of, without,
};
use cpt_cert_form::{Claim, Version};
use cpt_check::{Ruling, Why};
use cpt_check_text::check_text;
use cpt_task::Task;
use cpt_trim::{TrimError, Trimmed, trim};
use std::alloc::Global;
use std::process::Abort;
use std::test::Fail;

/// What trimming a text comes to over a task.
fn trimmed(alloc: Global, task: &Task, text: &[u8]) -> Option<Result<Trimmed, TrimError>> {
    if task.atoms().len() > 2048 || task.actions().len() > 4096 || text.len() > 65_536 {
        return None;
    }
    Some(trim(alloc, task, text))
}

/// Whether the text is a certificate of the task.
fn is_accepted(alloc: Global, task: &Task, text: &[u8]) -> Result<bool, Fail> {
    if task.atoms().len() > 2048 || task.actions().len() > 4096 || text.len() > 65_536 {
        return Err("size".into());
    }
    match check_text(alloc, task, text) {
        Ok(judged) => Ok(matches!(judged.ruling, Ruling::Accepted(_))),
        Err(_) => Err("memory".into()),
    }
}

/// The numbers of the lines that are dropped of a certificate with this claim.
fn expect_dropped_of(
    rt: &impl Abort,
    alloc: Global,
    task: &Task,
    text: &str,
    claim: Claim,
    dropped: &[u64],
) -> Result<(), Fail> {
    match trimmed(alloc, task, text.as_bytes()) {
        Some(Ok(less)) => {
            assert_eq!(rt; less.version, Version::One);
            assert_eq!(rt; less.claim, claim);
            assert_eq!(rt; less.dropped.as_slice(), dropped);
        }
        _ => return Err("trim".into()),
    }
    Ok(())
}

/// As `expect_dropped_of`, and of the lines that are left none is dropped.
fn expect_dropped(
    rt: &impl Abort,
    alloc: Global,
    task: &[&str],
    lines: &[&str],
    claim: Claim,
    dropped: &[u64],
) -> Result<(), Fail> {
    let task = task_of(alloc, task).ok_or("task")?;
    let text = text_of(alloc, lines).ok_or("text")?;
    expect_dropped_of(rt, alloc, &task, &text, claim, dropped)?;
    let less = without(alloc, &text, dropped).ok_or("less")?;
    expect_dropped_of(rt, alloc, &task, &less, claim, &[])
}

#[test]
fn needless_steps_are_dropped(rt: HostRuntime) -> Result<(), Fail> {
    let alloc = rt.alloc();
    let claim = Claim::Optimal(3);
    expect_dropped(&rt, alloc, &CHAIN_TASK, &CHAIN, claim, &[14])?;
    expect_dropped(&rt, alloc, &CHAIN_TASK, &LONG_CHAIN, claim, &[14, 15])
}

/// What trimming refuses lines with.
fn refused(alloc: Global, task: &[&str], lines: &[&str]) -> Option<TrimError> {
    let task = task_of(alloc, task)?;
    let text = text_of(alloc, lines)?;
    trimmed(alloc, &task, text.as_bytes())?.err()
}

#[test]
fn a_text_that_is_no_certificate_is_refused(rt: HostRuntime) -> Result<(), Fail> {
    let error = refused(rt.alloc(), &CHAIN_TASK, &FAULTY).ok_or("error")?;
    let wanted = TrimError::Rejected {
        version: Some(Version::One),
        line: 15,
        why: Why::Step,
    };
    assert_eq!(rt; error, wanted);
    Ok(())
}

/// What is left of a certificate, of which some lines are dropped.
fn trimmed_text(rt: &impl Abort, alloc: Global, task: &Task, text: &str) -> Result<String, Fail> {
    let less = match trimmed(alloc, task, text.as_bytes()) {
        Some(Ok(less)) => less,
        Some(Err(e)) => {
            assert_eq!(rt; e, TrimError::Memory);
            return Err("trim".into());
        }
        None => return Err("trim".into()),
    };
    let dropped = less.dropped.as_slice();
    assert!(rt; !dropped.is_empty());
    let left = without(alloc, text, dropped).ok_or("left")?;
    Ok(left)
}

/// The text is no certificate without the line.
fn expect_needed(
    rt: &impl Abort,
    alloc: Global,
    task: &Task,
    left: &str,
    number: u64,
) -> Result<(), Fail> {
    let text = without(alloc, left, &[number]).ok_or("without")?;
    let accepted = is_accepted(alloc, task, text.as_bytes())?;
    assert!(rt; !accepted, "without {number}");
    Ok(())
}

/// No line of the text can go.
fn expect_least(rt: &impl Abort, alloc: Global, task: &Task, left: &str) -> Result<(), Fail> {
    let mut number: u64 = 0;
    for _ in left.lines() {
        number = number.saturating_add(1);
        expect_needed(rt, alloc, task, left, number)?;
    }
    Ok(())
}

/// Some lines of a certificate can go, and then no further line.
fn expect_trimmed(
    rt: &impl Abort,
    alloc: Global,
    task: &[&str],
    lines: &[&str],
) -> Result<(), Fail> {
    let task = task_of(alloc, task).ok_or("task")?;
    let text = text_of(alloc, lines).ok_or("text")?;
    let left = trimmed_text(rt, alloc, &task, &text)?;
    let accepted = is_accepted(alloc, &task, left.as_bytes())?;
    assert!(rt; accepted);
    expect_least(rt, alloc, &task, &left)
}

#[test]
fn no_further_line_of_many_rules_can_go(rt: HostRuntime) -> Result<(), Fail> {
    expect_trimmed(&rt, rt.alloc(), &MIXED_TASK, &MIXED)
}

#[test]
fn no_further_line_on_a_shared_resource_can_go(rt: HostRuntime) -> Result<(), Fail> {
    expect_trimmed(&rt, rt.alloc(), &SHARED_TASK, &SHARED)
}

#[test]
fn no_further_line_of_a_crowded_certificate_can_go(rt: HostRuntime) -> Result<(), Fail> {
    expect_trimmed(&rt, rt.alloc(), &SHARED_TASK, &CROWDED)
}

#[test]
fn no_further_line_on_two_trucks_can_go(rt: HostRuntime) -> Result<(), Fail> {
    expect_trimmed(&rt, rt.alloc(), &TRUCKS_TASK, &TRUCKS)
}

#[test]
fn needless_steps_of_a_node_are_dropped(rt: HostRuntime) -> Result<(), Fail> {
    let claim = Claim::Optimal(8);
    let dropped = [19, 20, 23, 27];
    expect_dropped(&rt, rt.alloc(), &SHARED_TASK, &SHARED, claim, &dropped)
}

#[test]
fn needless_steps_of_a_crowded_certificate_are_dropped(rt: HostRuntime) -> Result<(), Fail> {
    let claim = Claim::Optimal(8);
    let dropped = [19, 20, 21, 22, 23, 26, 27, 28, 29, 33];
    expect_dropped(&rt, rt.alloc(), &SHARED_TASK, &CROWDED, claim, &dropped)
}
