//! Every proper front of each text, by every command that reads it.

use crate::scene::{Cut, is_written, library, output, status_of, words_of};
use crate::texts::{COMMANDS, Command, FILES};
use std::alloc::{AllocError, Global};
use std::process::Abort;
use std::test::Fail;

/// What is due: a status and a text.
#[derive(Drop)]
struct Due {
    status: u8,
    text: String,
}

/// The number of the line in which a text ends, from 1 on.
fn line_of(front: &[u8]) -> u64 {
    let mut line: u64 = 1;
    for byte in front {
        if *byte == b'\n' {
            line = line.saturating_add(1);
        }
    }
    line
}

/// A group that is open from the first byte on is not closed; a text without any group is none.
fn of_pddl(alloc: Global, kind: &str, front: &[u8]) -> Result<Due, AllocError> {
    let word = if front.is_empty() {
        "shape"
    } else {
        "unclosed"
    };
    Ok(Due {
        status: 4,
        text: format!(in alloc; "fault: {kind} byte 0: {word}\n")?,
    })
}

/// The last line has no end, or is not there.
fn of_task(alloc: Global, front: &[u8]) -> Result<Due, AllocError> {
    let line = line_of(front);
    Ok(Due {
        status: 4,
        text: format!(in alloc; "fault: task line {line}: line\n")?,
    })
}

/// The same of a certificate, whose version is known once its first line has an end.
fn of_certificate(alloc: Global, front: &[u8]) -> Result<Due, AllocError> {
    let line = line_of(front);
    let version = if line == 1 { "" } else { "version 1\n" };
    Ok(Due {
        status: 1,
        text: format!(in alloc; "{version}rejected: line {line}: grammar\n")?,
    })
}

/// A last line of a plan may lack its line feed, and nothing else. The second action alone brings the goal.
fn of_plan(alloc: Global, it: &Command, front: &[u8]) -> Result<Due, AllocError> {
    let line = line_of(front);
    let is_whole = matches!(front.last(), None | Some(b'\n') | Some(b')'));
    if !is_whole {
        return Ok(Due {
            status: 4,
            text: format!(in alloc; "fault: plan line {line}: line\n")?,
        });
    }
    if line == 2 && front.last() == Some(&b')') {
        return Ok(Due {
            status: it.status,
            text: String::from_str(alloc, it.text)?,
        });
    }
    let count = if it.words.contains(&"explain") {
        "faults 1\n"
    } else {
        ""
    };
    Ok(Due {
        status: 1,
        text: format!(in alloc; "invalid: goal (g) is missing\n{count}")?,
    })
}

/// A list or an object is not closed, or there is none.
fn of_json(alloc: Global, kind: &str) -> Result<Due, AllocError> {
    Ok(Due {
        status: 4,
        text: format!(in alloc; "fault: {kind} json: syntax\n")?,
    })
}

fn due_of(alloc: Global, it: &Command, name: &str, front: &[u8]) -> Result<Due, AllocError> {
    match name {
        "d" => of_pddl(alloc, "domain", front),
        "p" => of_pddl(alloc, "problem", front),
        "t" => of_task(alloc, front),
        "c" => of_certificate(alloc, front),
        "n" => of_plan(alloc, it, front),
        "tj" => of_json(alloc, "task"),
        _ => of_json(alloc, "plan"),
    }
}

/// Runs the command over the files, of which one ends after so many bytes.
fn front_is_answered(
    rt: &impl Abort,
    alloc: Global,
    it: &Command,
    cut: &Cut,
    due: &Due,
) -> Result<(), Fail> {
    let words = words_of(alloc, it.words)?;
    let mut lib = library(alloc, cut, &[])?;
    let mut out = output(alloc, 4096, &[])?;
    let status = status_of(alloc, &words, &mut lib, &mut out);
    let is_due = status == due.status && is_written(&out, due.text.as_str());
    assert!(rt; is_due, "where {} is due", due.text);
    Ok(())
}

/// Each front of a text is answered as it is due.
fn fronts_are_answered(
    rt: &impl Abort,
    alloc: Global,
    it: &Command,
    name: &str,
    whole: &[u8],
) -> Result<(), Fail> {
    for length in 0..whole.len() {
        let cut = Cut { name, length };
        let front = whole.get(..length).unwrap_or(whole);
        front_is_answered(rt, alloc, it, &cut, &due_of(alloc, it, name, front)?)?;
    }
    Ok(())
}

#[test]
fn each_front_of_each_text_is_answered_as_it_is_due(rt: HostRuntime) -> Result<(), Fail> {
    for it in &COMMANDS {
        for file in &FILES {
            if it.words.contains(&file.0) {
                fronts_are_answered(&rt, rt.alloc(), it, file.0, file.1.as_bytes())?;
            }
        }
    }
    Ok(())
}
