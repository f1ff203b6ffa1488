//! A text in memory.

ghost use Rattle.std.specs.Prelude.{◌≡◌, ◌≤◌, ◌^◌, ℕ, Some, length, IfOk};
ghost use Rattle.cpt_io.specs.InMemory.{mem_faults, mem_left};
ghost use Rattle.cpt_check.specs.Judging.{RulesOf, RulingHolds};

use cpt_check::{Judged, check};
use cpt_io::{Library, MemLibrary};
use cpt_task::{List, Memory, Task};
use std::alloc::Global;

/// A library in memory in which a file with the text is open.
fn opened(alloc: Global, text: &[u8]) -> Result<MemLibrary, Memory>
    ensures left { IfOk result (λ lib. mem_left lib ≡ Some text.now) }
    ensures faults { IfOk result (λ lib. mem_faults lib ≡ 0) }
{
    let bytes = Vec::from_slice(alloc, text)?;
    let mut files = Vec::new(alloc);
    files.push((List::from_vec(Vec::new(alloc)), bytes))?;
    let mut lib = MemLibrary::new(files, Vec::new(alloc));
    match lib.open("") {
        Ok(()) => Ok(lib),
        Err(_) => Err(Memory),
    }
}

/// Judges a text in memory, of at most 2^36 bytes.
///
/// `Accepted` comes exactly where the text is a certificate of the task, and `Rejected` carries its first fault.
pub fn check_text(alloc: Global, task: &Task, text: &[u8]) -> Result<Judged, Memory>
    requires size { length text.now ≤ 2 ^ 36 }
    requires atoms { length task.now.atoms ≤ 2048 }
    requires actions { length task.now.actions ≤ 4096 }
    ensures rules { IfOk result (λ judged. (most : ℕ) → length text.now ≤ most → RulesOf task.now most text.now judged.version judged.ruling) }
    // Where the text is accepted its claim holds.
    ensures holds { IfOk result (λ judged. RulingHolds task.now text.now judged.version judged.ruling) }
{
    let mut lib = opened(alloc, text)?;
    match check(alloc, task, &mut lib, text.len() as u64) {
        Ok(judged) => Ok(judged),
        Err(_) => Err(Memory),
    }
}
