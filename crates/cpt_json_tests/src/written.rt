//! A task written and read, and reports.

use crate::scene::TASK;
use cpt_json::{duration_json, read_plan_json, read_task_json, report_json, task_json};
use cpt_task::{Occ, Verdict};
use std::test::Fail;

#[test]
fn a_task_is_written_as_it_was_read(rt: HostRuntime) -> Result<(), Fail> {
    let alloc = rt.alloc();
    let task = read_task_json(alloc, TASK.as_bytes())?;
    let text = task_json(alloc, &task)?;
    assert!(rt; text.as_slice() == TASK.as_bytes());
    Ok(())
}

#[test]
fn a_plan_is_read(rt: HostRuntime) -> Result<(), Fail> {
    let alloc = rt.alloc();
    let task = read_task_json(alloc, TASK.as_bytes())?;
    let text = b"[{\"name\":\"(b)\",\"start\":7},{\"name\":\"(a)\",\"start\":0}]".as_slice();
    let plan = read_plan_json(alloc, &task, text)?;
    let wanted = [Occ { act: 1, start: 7 }, Occ { act: 0, start: 0 }];
    assert!(rt; plan.as_slice() == wanted.as_slice());
    Ok(())
}

#[test]
fn a_valid_plan_is_reported(rt: HostRuntime) -> Result<(), Fail> {
    let alloc = rt.alloc();
    let task = read_task_json(alloc, TASK.as_bytes())?;
    let report = report_json(alloc, &task, &Verdict::Valid(8))?;
    assert!(rt; report.as_slice() == b"{\"makespan\":8,\"valid\":true}".as_slice());
    Ok(())
}

#[test]
fn an_overlap_is_reported(rt: HostRuntime) -> Result<(), Fail> {
    let alloc = rt.alloc();
    let task = read_task_json(alloc, TASK.as_bytes())?;
    let report = report_json(alloc, &task, &Verdict::Overlap(0, 1))?;
    assert!(rt;
        report.as_slice()
            == b"{\"fault\":\"overlap\",\"first\":0,\"second\":1,\"valid\":false}".as_slice()
    );
    Ok(())
}

#[test]
fn an_unmet_atom_is_reported(rt: HostRuntime) -> Result<(), Fail> {
    let alloc = rt.alloc();
    let task = read_task_json(alloc, TASK.as_bytes())?;
    let enough = task.atoms().len() == 3;
    assert!(rt; enough);
    let report = report_json(alloc, &task, &Verdict::Unmet(0, 2, 4))?;
    assert!(rt;
        report.as_slice()
            == b"{\"atom\":\"(q)\",\"fault\":\"unmet\",\"item\":0,\"time\":4,\"valid\":false}".as_slice()
    );
    Ok(())
}

#[test]
fn a_missing_goal_is_reported(rt: HostRuntime) -> Result<(), Fail> {
    let alloc = rt.alloc();
    let task = read_task_json(alloc, TASK.as_bytes())?;
    let enough = task.atoms().len() == 3;
    assert!(rt; enough);
    let report = report_json(alloc, &task, &Verdict::GoalMissing(1))?;
    assert!(rt;
        report.as_slice() == b"{\"atom\":\"(p)\",\"fault\":\"goal\",\"valid\":false}".as_slice()
    );
    Ok(())
}

#[test]
fn another_duration_is_reported(rt: HostRuntime) -> Result<(), Fail> {
    let report = duration_json(rt.alloc(), 0, 5)?;
    assert!(rt;
        report.as_slice()
            == b"{\"dur\":5,\"fault\":\"duration\",\"item\":0,\"valid\":false}".as_slice()
    );
    Ok(())
}
