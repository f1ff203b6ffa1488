//! Certificates with one change, and the faults that it makes.

use crate::certs::{CHAIN, EASY, KEY, LOST, MIXED, NEVER};
use crate::changed::{Change, text_of};
use crate::expected::{expect, rejected};
use crate::scene::{CHAIN_TASK, EASY_TASK, KEY_TASK, LOST_TASK, MIXED_TASK};
use cpt_cert::Version;
use cpt_cert_accept::Why;
use std::alloc::Global;
use std::process::Abort;
use std::test::Fail;

/// A change of a certificate, and the line and the reason of the fault that it makes.
type Fault = (Change, u64, Why);

/// A task, a certificate of it, and its version.
type Whole<'a> = (&'a [&'a str], &'a [&'a str], Version);

fn expect_fault(rt: &impl Abort, alloc: Global, whole: &Whole, fault: &Fault) -> Result<(), Fail> {
    let (task, lines, version) = whole;
    let (change, line, why) = fault;
    let text = text_of(alloc, lines, *change)?;
    let wanted = rejected(Some(*version), *line, *why);
    expect(rt, alloc, task, text.as_slice(), (7, 1_000_000), Ok(wanted))
}

fn expect_faults(
    rt: &impl Abort,
    alloc: Global,
    whole: &Whole,
    faults: &[Fault],
) -> Result<(), Fail> {
    for fault in faults {
        expect_fault(rt, alloc, whole, fault)?;
    }
    Ok(())
}

/// Changes of the certificate of the first version, and their faults.
const FIRST_FAULTS: [Fault; 21] = [
    (Change::Line(2, "claim spent 5 07"), 2, Why::Grammar),
    (Change::Line(5, "h 0 1 3 3"), 5, Why::Grammar),
    (Change::Line(11, "d 0*5"), 11, Why::Grammar),
    (Change::Without(16), 16, Why::Grammar),
    (Change::Without(49), 49, Why::Grammar),
    (Change::Without(50), 50, Why::Grammar),
    (Change::Line(3, "task 4 4"), 3, Why::Task),
    (Change::Line(3, "task 5 5"), 3, Why::Task),
    (Change::Line(9, "h 4"), 9, Why::Pair),
    (Change::Line(5, "h 0 2 3 3 3"), 5, Why::Pair),
    (Change::Line(12, "d 0 2 0 0 0"), 12, Why::Dist),
    (Change::Line(15, "tree 4"), 15, Why::Bound),
    (Change::Line(17, "open-tree 7"), 17, Why::Bound),
    (Change::Before(16, "4 1 2 3"), 16, Why::Step),
    (Change::Line(26, "4 3 0 4"), 26, Why::Step),
    (Change::Line(47, "close"), 47, Why::Close),
    (Change::Line(18, "branch open 1 0"), 18, Why::Branch),
    (Change::Line(22, "branch clash 3 2"), 22, Why::Branch),
    (Change::Line(19, "child bring 1 4 2"), 19, Why::Child),
    (Change::Line(23, "child before 3 2"), 23, Why::Child),
    (Change::Line(2, "claim spent 5 8"), 50, Why::Count),
];

#[test]
fn faults_of_a_certificate_of_the_first_version(rt: HostRuntime) -> Result<(), Fail> {
    let whole = (MIXED_TASK.as_slice(), MIXED.as_slice(), Version::One);
    expect_faults(&rt, rt.alloc(), &whole, &FIRST_FAULTS)
}

/// Changes of the certificate of the second version, and their faults.
const SECOND_FAULTS: [Fault; 9] = [
    (Change::Line(5, "h 1 4 4"), 5, Why::Grammar),
    (Change::Line(5, "h 1 4*3"), 5, Why::Grammar),
    (Change::Line(6, "h 3 7"), 6, Why::Pair),
    (Change::Line(10, "d 2 0*2"), 10, Why::Dist),
    (Change::Line(34, "close"), 34, Why::Close),
    (Change::Line(20, "branch threat 2 0 3"), 20, Why::Branch),
    (Change::Line(21, "child before 2 4"), 21, Why::Child),
    (Change::Line(2, "claim spent 5 5"), 39, Why::Count),
    (Change::Line(2, "claim spent 4 6"), 12, Why::Bound),
];

#[test]
fn faults_of_a_certificate_of_the_second_version(rt: HostRuntime) -> Result<(), Fail> {
    let whole = (KEY_TASK.as_slice(), KEY.as_slice(), Version::Two);
    expect_faults(&rt, rt.alloc(), &whole, &SECOND_FAULTS)
}

/// Changes of the certificate of a plan, and their faults.
const CHAIN_FAULTS: [Fault; 10] = [
    (Change::Line(2, "claim optimal 4"), 4, Why::Plan),
    (Change::Line(6, "0 1"), 4, Why::Plan),
    (Change::Line(6, "1 2"), 4, Why::Plan),
    (Change::Line(6, "1 4294967297"), 4, Why::Plan),
    (Change::Line(6, "9999999999999999 1"), 4, Why::Plan),
    (Change::Line(4, "plan 1"), 4, Why::Plan),
    (Change::Line(5, "2 0"), 6, Why::Grammar),
    (Change::Line(15, "10 1 0 2"), 15, Why::Step),
    (Change::Without(16), 16, Why::Close),
    (Change::Before(18, "end"), 19, Why::Grammar),
];

/// A table in which the goal has a finite value.
const FINITE: [Fault; 1] = [(Change::Line(5, "h 0"), 2, Why::Goal)];

/// Changes of the certificate of an empty plan.
const HELD: [Fault; 2] = [
    (Change::Line(2, "claim optimal 1"), 4, Why::Plan),
    (Change::Before(5, "0 0"), 5, Why::Grammar),
];

/// A claim that fails as it stands.
const HOLDS: [Fault; 1] = [(Change::None, 2, Why::Goal)];

#[test]
fn faults_of_plans_and_steps(rt: HostRuntime) -> Result<(), Fail> {
    let whole = (CHAIN_TASK.as_slice(), CHAIN.as_slice(), Version::One);
    expect_faults(&rt, rt.alloc(), &whole, &CHAIN_FAULTS)
}

#[test]
fn faults_of_a_certificate_of_no_plan(rt: HostRuntime) -> Result<(), Fail> {
    let whole = (LOST_TASK.as_slice(), LOST.as_slice(), Version::Two);
    expect_faults(&rt, rt.alloc(), &whole, &FINITE)
}

#[test]
fn faults_of_an_empty_plan(rt: HostRuntime) -> Result<(), Fail> {
    let whole = (EASY_TASK.as_slice(), EASY.as_slice(), Version::One);
    expect_faults(&rt, rt.alloc(), &whole, &HELD)
}

#[test]
fn faults_of_a_goal_that_holds(rt: HostRuntime) -> Result<(), Fail> {
    let whole = (EASY_TASK.as_slice(), NEVER.as_slice(), Version::One);
    expect_faults(&rt, rt.alloc(), &whole, &HOLDS)
}
