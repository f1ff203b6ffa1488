//! A text, piece by piece.

ghost use Rattle.std.specs.Prelude.{◌≡◌, ◌+◌, ◌≤◌, ◌^◌, ℕ, List, length, take, IfOk};
ghost use Rattle.cpt_check.specs.Progress.{IsRead, Takes, TakesFront};

use crate::judged::CheckError;
use crate::past::{Found, Past, judge_line};
use cpt_cert_read::Lines;
use cpt_task::{Memory, Task};
use std::alloc::Global;

/// Reads a piece more, up to the line after which a fault is known.
fn take_piece(
    alloc: Global,
    task: &Task,
    mut past: Past,
    lines: &mut Lines,
    piece: &[u8],
) -> Result<Found, Memory>
    requires read { (bytes : List ℕ) × IsRead task.now bytes past lines.old × (length bytes + length piece.now ≤ 2 ^ 36) }
    requires atoms { length task.now.atoms ≤ 2048 }
    requires actions { length task.now.actions ≤ 4096 }
    ensures { IfOk result (λ f. (bytes : List ℕ) → IsRead task.now bytes past lines.old → Takes task.now bytes piece.now lines.new f) }
{
    let mut at = 0;
    loop {
        let (taken, line) = lines.feed(&piece[at..])?;
        let Some(line) = line else {
            return Ok(Found::On(past));
        };
        match judge_line(alloc, task, past, &line)? {
            Found::On(next) => past = next,
            Found::Fault(fault) => return Ok(Found::Fault(fault)),
        }
        at += taken;
    }
}

/// The front of the piece for which there is room.
fn fitting(piece: &[u8], room: u64) -> &[u8]
    ensures { result.now ≡ take room piece.now }
{
    if piece.len() as u64 <= room {
        piece
    } else {
        &piece[..room as usize]
    }
}

/// Reads a piece more, as far as there is room. `TooLong` comes exactly where the piece has more bytes, and no fault is
/// known from those that have room.
pub fn take_front(
    alloc: Global,
    task: &Task,
    past: Past,
    lines: &mut Lines,
    piece: &[u8],
    room: u64,
) -> Result<Found, CheckError>
    requires read { (bytes : List ℕ) × IsRead task.now bytes past lines.old × (length bytes + room ≤ 2 ^ 36) }
    requires atoms { length task.now.atoms ≤ 2048 }
    requires actions { length task.now.actions ≤ 4096 }
    ensures { (bytes : List ℕ) → IsRead task.now bytes past lines.old → TakesFront task.now bytes piece.now room lines.new result }
{
    match take_piece(alloc, task, past, lines, fitting(piece, room))? {
        Found::On(past) => {
            if room < piece.len() as u64 {
                return Err(CheckError::TooLong);
            }
            Ok(Found::On(past))
        }
        Found::Fault(fault) => Ok(Found::Fault(fault)),
    }
}
