//! Tasks at their limits, and of two faults the one that is told.

use crate::scene::task_fault;
use crate::sizes::{Wrong, largest, text_of, with_both};
use std::alloc::{AllocError, Global};
use std::process::Abort;
use std::test::Fail;

/// Faults in the order in which they are told.
const ORDER: [Wrong; 8] = [
    Wrong::Cut,
    Wrong::Key,
    Wrong::Atoms,
    Wrong::Actions,
    Wrong::Pre,
    Wrong::Name,
    Wrong::Goal,
    Wrong::Brief,
];

/// Asserts that with both faults the first is told.
fn first_is_told(
    rt: &impl Abort,
    alloc: Global,
    first: Wrong,
    second: Wrong,
) -> Result<(), AllocError> {
    let text = text_of(alloc, with_both(first, second))?;
    assert!(rt; task_fault(alloc, text.as_bytes()) == Some(first.cause()));
    Ok(())
}

fn told_before_each(
    rt: &impl Abort,
    alloc: Global,
    first: Wrong,
    others: &[Wrong],
) -> Result<(), AllocError> {
    for other in others {
        first_is_told(rt, alloc, first, *other)?;
    }
    Ok(())
}

#[test]
fn faults_are_told_in_order(rt: HostRuntime) -> Result<(), Fail> {
    for (place, first) in ORDER.iter().enumerate() {
        told_before_each(&rt, rt.alloc(), *first, &ORDER[place..])?;
    }
    Ok(())
}

#[test]
fn long_lists_and_durations_are_told(rt: HostRuntime) -> Result<(), Fail> {
    for wrong in [Wrong::Add, Wrong::Del, Wrong::Long] {
        first_is_told(&rt, rt.alloc(), wrong, wrong)?;
    }
    Ok(())
}

#[test]
fn a_task_at_each_limit_is_read(rt: HostRuntime) -> Result<(), Fail> {
    let alloc = rt.alloc();
    let text = text_of(alloc, largest())?;
    assert!(rt; task_fault(alloc, text.as_bytes()).is_none());
    Ok(())
}
