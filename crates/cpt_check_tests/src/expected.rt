//! What the checker says of a text, beside what is wanted.

use crate::scene::task_of;
use cpt_cert::{Claim, Version};
use cpt_cert_accept::Why;
use cpt_check::{CheckError, Judged, Ruling, check};
use cpt_io::{Library, MemLibrary};
use cpt_task::{List, Task};
use std::alloc::Global;
use std::process::Abort;
use std::test::Fail;

/// What is said of the text, of which a pull gives at most so many bytes. `None` where no memory is left or the call
/// would break a limit.
fn judged(
    alloc: Global,
    task: &Task,
    text: &[u8],
    piece: usize,
    most: u64,
) -> Option<Result<Judged, CheckError>> {
    if task.atoms().len() > 2048 || task.actions().len() > 4096 {
        return None;
    }
    if piece == 0 || most > 1_000_000 {
        return None;
    }
    let name = List::from_vec(b"c".to_vec(alloc).ok()?);
    let file = (name, text.to_vec(alloc).ok()?);
    let files = Vec::from_array(alloc, [file]).ok()?;
    let mut lib = MemLibrary::with_pieces(files, Vec::new(alloc), piece);
    lib.open("c").ok()?;
    Some(check(alloc, task, &mut lib, most))
}

pub fn accepted(version: Version, claim: Claim) -> Judged {
    Judged {
        version: Some(version),
        ruling: Ruling::Accepted(claim),
    }
}

pub fn rejected(version: Option<Version>, line: u64, why: Why) -> Judged {
    Judged {
        version,
        ruling: Ruling::Rejected { line, why },
    }
}

/// Whether the wanted answer is given to the text, in pieces of at most so many bytes, of which at most so many are
/// taken.
fn is_said(
    alloc: Global,
    task: &Task,
    text: &[u8],
    limits: (usize, u64),
    wanted: Result<Judged, CheckError>,
) -> bool {
    let (piece, most) = limits;
    judged(alloc, task, text, piece, most) == Some(wanted)
}

/// Expects the answer to the text, in pieces of at most so many bytes, of which at most so many are taken.
pub fn expect(
    rt: &impl Abort,
    alloc: Global,
    task: &[&str],
    text: &[u8],
    limits: (usize, u64),
    wanted: Result<Judged, CheckError>,
) -> Result<(), Fail> {
    let task = task_of(alloc, task).ok_or("task")?;
    let is_as_wanted = is_said(alloc, &task, text, limits, wanted);
    assert!(rt; is_as_wanted, "{limits:?} {wanted:?}");
    Ok(())
}
