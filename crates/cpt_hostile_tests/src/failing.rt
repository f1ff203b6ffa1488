//! Each command over files or an output in which one call fails: it is the last call that is made on that object.

use crate::counting::{CountingLibrary, CountingSink};
use crate::scene::{WHOLE, is_front, is_written, library, output, status_of, words_of};
use crate::texts::{COMMANDS, Command, FILES};
use cpt_io::MemSink;
use std::alloc::Global;
use std::process::Abort;
use std::test::Fail;

/// More calls than any command makes here.
const MOST: u64 = 1000;

/// Runs the command over files in which the call of this number fails, and says whether that call was made. It was the
/// last one then.
fn reads_fail_at(rt: &impl Abort, alloc: Global, it: &Command, call: u64) -> Result<bool, Fail> {
    let words = words_of(alloc, it.words)?;
    let mut lib = CountingLibrary {
        inner: library(alloc, &WHOLE, &[call])?,
        calls: 0,
    };
    let mut out = output(alloc, 4096, &[])?;
    let status = status_of(alloc, &words, &mut lib, &mut out);
    let is_made = call < lib.calls;
    let is_due = if is_made {
        status == 7 && lib.calls == call.saturating_add(1) && is_written(&out, "fault: read\n")
    } else {
        status == it.status && is_written(&out, it.text)
    };
    assert!(rt; is_due, "at call {call}");
    Ok(is_made)
}

/// Each call on the files fails in turn, until none is left. Returns how many there are.
fn each_read_fails(rt: &impl Abort, alloc: Global, it: &Command) -> Result<u64, Fail> {
    for call in 0..MOST {
        if !reads_fail_at(rt, alloc, it, call)? {
            return Ok(call);
        }
    }
    Err("a command that never ends")?
}

/// For each file that the command names an opening, a pull for each 64 bytes begun, and one that gives none.
fn calls_due(it: &Command) -> u64 {
    let mut calls: u64 = 0;
    for file in &FILES {
        if it.words.contains(&file.0) {
            let pulls = file.1.len().div_ceil(64) as u64;
            calls = calls.saturating_add(2).saturating_add(pulls);
        }
    }
    calls
}

#[test]
fn each_failing_read_is_the_last_call_and_is_answered(rt: HostRuntime) -> Result<(), Fail> {
    for it in &COMMANDS {
        let calls = each_read_fails(&rt, rt.alloc(), it)?;
        assert!(rt; calls == calls_due(it));
    }
    Ok(())
}

/// Whether a front of the text is written that is shorter, and nothing at all before the first call.
fn is_front_before(out: &MemSink, text: &str, call: u64) -> bool {
    let length = out.written().len();
    is_front(out, text) && length < text.len() && (0 < call || length == 0)
}

/// Runs the command over an output in which the call of this number fails, and says whether that call was made. It was
/// the last one then, and a front of the answer was written.
fn writes_fail_at(rt: &impl Abort, alloc: Global, it: &Command, call: u64) -> Result<bool, Fail> {
    let words = words_of(alloc, it.words)?;
    let mut lib = library(alloc, &WHOLE, &[])?;
    let mut out = CountingSink {
        inner: output(alloc, 4096, &[call])?,
        calls: 0,
    };
    let status = status_of(alloc, &words, &mut lib, &mut out);
    let is_made = call < out.calls;
    let is_due = if is_made {
        status == 8
            && out.calls == call.saturating_add(1)
            && is_front_before(&out.inner, it.text, call)
    } else {
        status == it.status && is_written(&out.inner, it.text)
    };
    assert!(rt; is_due, "at call {call}");
    Ok(is_made)
}

/// Each call on the output fails in turn, until none is left.
fn each_write_fails(rt: &impl Abort, alloc: Global, it: &Command) -> Result<(), Fail> {
    for call in 0..MOST {
        if !writes_fail_at(rt, alloc, it, call)? {
            assert!(rt; 0 < call);
            return Ok(());
        }
    }
    Err("a command that never ends")?
}

#[test]
fn each_failing_write_is_the_last_call_and_leaves_a_front(rt: HostRuntime) -> Result<(), Fail> {
    for it in &COMMANDS {
        each_write_fails(&rt, rt.alloc(), it)?;
    }
    Ok(())
}

/// Runs the command over an output with so much room, less than its answer needs.
fn room_ends_at(rt: &impl Abort, alloc: Global, it: &Command, room: usize) -> Result<(), Fail> {
    let words = words_of(alloc, it.words)?;
    let mut lib = library(alloc, &WHOLE, &[])?;
    let mut out = output(alloc, room, &[])?;
    let status = status_of(alloc, &words, &mut lib, &mut out);
    let is_due = status == 8 && out.written().len() == room && is_front(&out, it.text);
    assert!(rt; is_due, "at room {room}");
    Ok(())
}

#[test]
fn an_output_that_is_full_keeps_what_fits(rt: HostRuntime) -> Result<(), Fail> {
    for it in &COMMANDS {
        for room in 0..it.text.len() {
            room_ends_at(&rt, rt.alloc(), it, room)?;
        }
    }
    Ok(())
}
