//! The checker of certificates.

ghost use Rattle.std.specs.Prelude.{◌≡◌, ◌≢◌, ◌-◌, ◌^◌, ◌<◌, ◌≤◌, ℕ, List, length, IsTrue, IsErrOf, Err, None, Some};
ghost use Rattle.cpt_check.specs.Judging.{Rules, Leaves, Holds, SaysOf};

use crate::ending::{conclude, rejected};
use crate::judged::{CheckError, Judged};
use crate::past::{Found, start};
use crate::pieces::take_front;
use cpt_cert_read::Lines;
use cpt_io::Library;
use cpt_task::Task;
use std::alloc::Global;

/// Judges the text that is left of the opened file, of which at most `most` bytes are taken, while it is read.
///
/// `Accepted` comes exactly where the text has at most `most` bytes and is a certificate of the task; it was then read
/// to its end. `Rejected` carries the first fault of the text, which has at most `most` bytes, or the fault stands in
/// lines that end within them; at most 65,536 bytes were pulled behind the line after which the fault is known.
/// `TooLong` comes exactly where more bytes came and no fault stood in the lines that end within them; at most 65,536
/// more were pulled. `Failed` comes only where a call on the library failed. `Memory` means want of memory.
pub fn check<L: Library>(
    alloc: Global,
    task: &Task,
    lib: &mut L,
    most: u64,
) -> Result<Judged, CheckError>
    requires most { most ≤ 2 ^ 36 }
    requires atoms { length task.now.atoms ≤ 2048 }
    requires actions { length task.now.actions ≤ 4096 }
    requires faults { L.faults lib.old < 2 ^ 64 - 1 }
    ensures same { L.holds lib.new ≡ L.holds lib.old }
    ensures rules { (text : List ℕ) → L.left lib.old ≡ Some text → Rules task.now most text result }
    ensures leaves { (text : List ℕ) → L.left lib.old ≡ Some text → Leaves task.now most text (L.left lib.new) result }
    // Where the text is accepted its claim holds.
    ensures holds { (text : List ℕ) → L.left lib.old ≡ Some text → Holds task.now text result }
    // Where the library tells no bytes, there is a text of which this is said.
    ensures untold { L.left lib.old ≡ None → (text : List ℕ) × SaysOf task.now most text result }
    ensures failed { IsErrOf result CheckError.Failed → L.faults lib.old < L.faults lib.new }
    ensures kept { result ≢ Err CheckError.Failed → L.faults lib.new ≡ L.faults lib.old }
    ensures steady { IsTrue (L.steady lib.old) → IsTrue (L.steady lib.new) }
    ensures never { IsTrue (L.steady lib.old) → IsErrOf result CheckError.Failed → ⊥ }
{
    let mut lines = Lines::new(alloc)?;
    let mut past = start();
    let mut room = most;
    let mut piece = [0u8; 4096];
    loop {
        let count = lib.pull(&mut piece)?;
        if count == 0 {
            return Ok(conclude(task, &past, &lines));
        }
        match take_front(alloc, task, past, &mut lines, &piece[..count], room) {
            Ok(Found::On(next)) => past = next,
            Ok(Found::Fault(fault)) => return Ok(rejected(fault)),
            Err(e) => return Err(e),
        }
        room -= count as u64;
    }
}
