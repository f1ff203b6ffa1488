//! The spelling of tasks, and which faults are answered.

use cpt_io::MemSink;
use cpt_task::{Limit, Task};
use cpt_task_text::{TaskTextError, print_task, read_task};
use std::alloc::{AllocError, Global};
use std::process::Abort;
use std::test::Fail;

// Two actions over three atoms.
const LINES: [&str; 14] = [
    "task 3 2",
    "atom (r)",
    "atom (p)",
    "atom (q)",
    "action (a) 5",
    "pre 0",
    "add 1",
    "del",
    "action (b) 3",
    "pre 0",
    "add 2",
    "del 0",
    "init 0",
    "goal 1 2",
];

fn push_line(text: &mut Vec<u8>, line: &str) -> Result<(), AllocError> {
    text.extend_from_slice(line.as_bytes())?;
    text.extend_from_slice(b"\n")
}

// The lines, with another one in this place. Places count from 1.
fn changed(alloc: Global, place: u32, line: &str) -> Result<Vec<u8>, AllocError> {
    let mut text = Vec::new(alloc);
    for (i, old) in LINES.iter().enumerate() {
        push_line(&mut text, if i + 1 == place as usize { line } else { old })?;
    }
    Ok(text)
}

fn put_atoms(alloc: Global, text: &mut Vec<u8>) -> Result<(), AllocError> {
    for i in 0..130 {
        let line = format!(in alloc; "atom (p{i})")?;
        push_line(text, line.as_str())?;
    }
    Ok(())
}

// The keyword and so many numbers, from 0 on.
fn put_numbers(
    alloc: Global,
    text: &mut Vec<u8>,
    keyword: &str,
    count: u32,
) -> Result<(), AllocError> {
    text.extend_from_slice(keyword.as_bytes())?;
    for i in 0..count {
        let number = format!(in alloc; " {i}")?;
        text.extend_from_slice(number.as_bytes())?;
    }
    text.extend_from_slice(b"\n")
}

fn put_action(alloc: Global, text: &mut Vec<u8>, counts: [u32; 3]) -> Result<(), AllocError> {
    let [pre, add, dele] = counts;
    push_line(text, "action (a) 100000")?;
    put_numbers(alloc, text, "pre", pre)?;
    put_numbers(alloc, text, "add", add)?;
    put_numbers(alloc, text, "del", dele)
}

// A task of 130 atoms, and an action with so many numbers in its lists.
fn listing(alloc: Global, counts: [u32; 3]) -> Result<Vec<u8>, AllocError> {
    let mut text = Vec::new(alloc);
    push_line(&mut text, "task 130 1")?;
    put_atoms(alloc, &mut text)?;
    put_action(alloc, &mut text, counts)?;
    put_numbers(alloc, &mut text, "init", 130)?;
    put_numbers(alloc, &mut text, "goal", 130)?;
    Ok(text)
}

fn read(alloc: Global, text: &[u8]) -> Result<Task, TaskTextError> {
    if text.len() > 16_777_216 {
        return Err(TaskTextError::Limit(Limit::File));
    }
    read_task(alloc, text)
}

// Whether the text is read as a task that is printed as the text.
fn is_printed_back(alloc: Global, text: &[u8]) -> Result<bool, Fail> {
    let task = read(alloc, text).ok().ok_or("the text is a task")?;
    let mut out = MemSink::new(alloc, 10_000, Vec::new(alloc))?;
    if print_task(alloc, &task, &mut out).is_err() {
        return Ok(false);
    }
    Ok(out.written() == text)
}

#[test]
fn what_is_read_is_printed_back(rt: HostRuntime) -> Result<(), Fail> {
    let small = changed(rt.alloc(), 0, "")?;
    let is_small_back = is_printed_back(rt.alloc(), small.as_slice())?;
    assert!(rt; is_small_back);
    let is_none_back = is_printed_back(rt.alloc(), b"task 0 0\ninit\ngoal\n")?;
    assert!(rt; is_none_back);
    Ok(())
}

#[test]
fn a_long_text_is_printed_back(rt: HostRuntime) -> Result<(), Fail> {
    let full = listing(rt.alloc(), [64, 128, 128])?;
    let is_back = is_printed_back(rt.alloc(), full.as_slice())?;
    assert!(rt; is_back);
    Ok(())
}

// Whether the text has this fault.
fn has_fault(alloc: Global, text: &[u8], fault: TaskTextError) -> bool {
    read(alloc, text).err() == Some(fault)
}

// Lines put in the place of others, by their place, each of which is the first fault.
const FAULTY_LINES: [(u32, &str); 19] = [
    (1, "task 3  2"),
    (1, "task 03 2"),
    (1, "task 5000 x"),
    (3, "atom p"),
    (3, "atom (P)"),
    (3, "atom (p )"),
    (3, "atom (r)"),
    (5, "action (a) 0"),
    (5, "action (a) 100001"),
    (5, "action (a) 5 "),
    (5, "action (a)5"),
    (9, "action (a) 3"),
    (6, "pre 3"),
    (6, "pre 1 0"),
    (6, "pre 1 1"),
    (6, "pre 00"),
    (6, "add 0"),
    (8, "del "),
    (13, "init 0 3"),
];

fn expect_faulty_lines(rt: &impl Abort, alloc: Global, lines: &[(u32, &str)]) -> Result<(), Fail> {
    for (number, line) in lines {
        let text = changed(alloc, *number, line)?;
        let is_found = has_fault(alloc, &text, TaskTextError::Line(*number));
        assert!(rt; is_found, "{line}");
    }
    Ok(())
}

#[test]
fn the_first_faulty_line_is_answered(rt: HostRuntime) -> Result<(), Fail> {
    expect_faulty_lines(&rt, rt.alloc(), &FAULTY_LINES)
}

// Texts, and their faults.
const FAULTY_TEXTS: [(&str, TaskTextError); 10] = [
    ("", TaskTextError::Line(1)),
    ("task 0 0", TaskTextError::Line(1)),
    ("task 0 1\n", TaskTextError::Line(2)),
    ("task 0 0\ninit\n", TaskTextError::Line(3)),
    ("task 0 0\ninit\ngoal", TaskTextError::Line(3)),
    ("task 0 0\ninit\ngoal\nx", TaskTextError::Line(4)),
    ("task 2 0\natom p\nx\n", TaskTextError::Line(2)),
    ("task 2049 4097\n", TaskTextError::Limit(Limit::Atoms)),
    ("task 2048 4097\n", TaskTextError::Limit(Limit::Actions)),
    (
        "task 1000000000000000000000000000000000000000 0\n",
        TaskTextError::Limit(Limit::Atoms),
    ),
];

fn expect_faults(
    rt: &impl Abort,
    alloc: Global,
    faults: &[(&str, TaskTextError)],
) -> Result<(), Fail> {
    for (text, fault) in faults {
        let is_found = has_fault(alloc, text.as_bytes(), *fault);
        assert!(rt; is_found, "{text}");
    }
    Ok(())
}

#[test]
fn the_first_fault_of_a_text_is_answered(rt: HostRuntime) -> Result<(), Fail> {
    expect_faults(&rt, rt.alloc(), &FAULTY_TEXTS)
}

#[test]
fn a_list_that_is_too_long_is_a_limit(rt: HostRuntime) -> Result<(), Fail> {
    for counts in [[65, 0, 0], [0, 129, 0], [0, 0, 129]] {
        let text = listing(rt.alloc(), counts)?;
        let limit = TaskTextError::Limit(Limit::LongList);
        let is_found = has_fault(rt.alloc(), &text, limit);
        assert!(rt; is_found);
    }
    Ok(())
}
