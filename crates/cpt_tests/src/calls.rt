//! Reads and writes that fail, and files that are not held or too long.

ghost use Rattle.std.specs.Prelude.{◌≡◌, IfOk};

use crate::counting::CountingSink;
use crate::plans::{ASKED, SHARED};
use crate::scene::{Case, expect_all, is_written, library, output, status_of, words_of};
use cpt_io::{Library, MemLibrary, MemSink};
use cpt_task::List;
use std::alloc::Global;
use std::process::Abort;
use std::test::Fail;

const PLAN: (&str, &str) = ("p", "0: (a)\n5: (b)\n");

/// No task, no plan, and a faulty task: it is understood before the plan is opened.
const NOT_HELD: [Case<'static>; 3] = [
    Case {
        words: ASKED,
        files: &[PLAN],
        status: 7,
        text: "fault: read\n",
    },
    Case {
        words: ASKED,
        files: &[SHARED],
        status: 7,
        text: "fault: read\n",
    },
    Case {
        words: ASKED,
        files: &[("t", "task")],
        status: 4,
        text: "fault: task line 1: line\n",
    },
];

#[test]
fn a_file_that_is_not_held_cannot_be_read(rt: HostRuntime) -> Result<(), Fail> {
    expect_all(&rt, rt.alloc(), &NOT_HELD)
}

/// Whether nothing is written by these words over an output whose first write fails: it is the only one.
fn ends_unwritten(alloc: Global, words: &[&str]) -> Result<bool, Fail> {
    let words = words_of(alloc, words)?;
    let mut lib = library(alloc, &[SHARED, PLAN], &[], 64)?;
    let mut failing = CountingSink {
        inner: output(alloc, &[0])?,
        calls: 0,
    };
    let status = status_of(alloc, &words, &mut lib, &mut failing);
    Ok(status == 8 && failing.calls == 1 && is_written(&failing.inner, ""))
}

/// Whether an output that is full keeps what fits.
fn keeps_what_fits(alloc: Global) -> Result<bool, Fail> {
    let words = words_of(alloc, ASKED)?;
    let mut lib = library(alloc, &[SHARED, PLAN], &[], 64)?;
    let Ok(mut full) = MemSink::new(alloc, 3, Vec::new(alloc)) else {
        return Err("memory")?;
    };
    let status = status_of(alloc, &words, &mut lib, &mut full);
    Ok(status == 8 && is_written(&full, "val"))
}

/// A result, the line of a fault of the words, and that of a file that is not held.
const WRITERS: &[&[&str]] = &[ASKED, &["validate-task"], &["validate-task", "t", "q"]];

fn expect_unwritten(rt: &impl Abort, alloc: Global, writers: &[&[&str]]) -> Result<(), Fail> {
    for words in writers {
        let is_so = ends_unwritten(alloc, words)?;
        assert!(rt; is_so, "{} words", words.len());
    }
    Ok(())
}

#[test]
fn a_failing_write_leaves_a_front(rt: HostRuntime) -> Result<(), Fail> {
    expect_unwritten(&rt, rt.alloc(), WRITERS)?;
    let is_kept = keeps_what_fits(rt.alloc())?;
    assert!(rt; is_kept);
    Ok(())
}

fn long_file(alloc: Global, length: usize) -> Result<MemLibrary, Fail>
    ensures { IfOk result (λ lib. ⟦<MemLibrary as Library>⟧.faults lib ≡ 0) }
{
    let mut files = Vec::new(alloc);
    let name = List::from_vec(b"t".to_vec(alloc)?);
    files.push((name, vec![in alloc; b' '; length]?))?;
    Ok(MemLibrary::new(files, Vec::new(alloc)))
}

/// Whether a task file of so many blanks is answered so.
fn is_answered(alloc: Global, length: usize, status: u8, text: &str) -> Result<bool, Fail> {
    let words = words_of(alloc, ASKED)?;
    let mut lib = long_file(alloc, length)?;
    let mut out = output(alloc, &[])?;
    let answer = status_of(alloc, &words, &mut lib, &mut out);
    Ok(answer == status && is_written(&out, text))
}

#[test]
fn a_file_of_one_byte_too_many_passes_the_limit(rt: HostRuntime) -> Result<(), Fail> {
    let is_refused = is_answered(rt.alloc(), 16_777_217, 6, "fault: limit file\n")?;
    assert!(rt; is_refused);
    let is_read = is_answered(rt.alloc(), 16_777_216, 4, "fault: task line 1: line\n")?;
    assert!(rt; is_read);
    Ok(())
}
