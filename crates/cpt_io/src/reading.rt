//! Whole files.

ghost use Rattle.std.specs.Prelude.{◌≡◌, ◌-◌, ◌^◌, ◌<◌, ◌≢◌, IsTrue, IsErrOf, OnOk, IsSome, Some, []};
ghost use Rattle.cpt_io.specs.Meaning.{Lacks};
ghost use Rattle.cpt_io.specs.Reading.{Reads};

use crate::library::{Library, ReadError};
use std::alloc::Global;

/// Opens the name once and reads the file to its end, which is all of its bytes, at most `most`.
///
/// `TooLong` comes exactly where more than `most` bytes came. `Failed` comes only where a call on
/// the library failed, and over a steady library exactly where the name is not held. `Memory`
/// means want of memory.
pub fn read_all<L: Library>(
    alloc: Global,
    lib: &mut L,
    name: &str,
    most: u64,
) -> Result<Vec<u8>, ReadError>
    requires { L.faults lib.old < 2 ^ 64 - 1 }
    ensures same { L.holds lib.new ≡ L.holds lib.old }
    ensures bytes { Reads (λ v. v.items) (L.holds lib.old) name.now most result }
    ensures end { OnOk result (IsSome (L.holds lib.old) → L.left lib.new ≡ Some []) }
    ensures failed { IsErrOf result ReadError.Failed → L.faults lib.old < L.faults lib.new }
    ensures kept { result ≢ Err ReadError.Failed → L.faults lib.new ≡ L.faults lib.old }
    ensures steady { IsTrue (L.steady lib.old) → IsTrue (L.steady lib.new) }
    ensures unheld { Lacks (L.holds lib.old) name.now → IsErrOf result ReadError.Failed }
    ensures lacking { IsTrue (L.steady lib.old) → IsErrOf result ReadError.Failed → Lacks (L.holds lib.old) name.now }
{
    lib.open(name)?;
    let mut bytes = Vec::new(alloc);
    let mut piece = [0u8; 4096];
    loop {
        let count = lib.pull(&mut piece)?;
        if count == 0 {
            return Ok(bytes);
        }
        if most - (bytes.len() as u64) < count as u64 {
            return Err(ReadError::TooLong);
        }
        bytes.extend_from_slice(&piece[..count])?;
    }
}
