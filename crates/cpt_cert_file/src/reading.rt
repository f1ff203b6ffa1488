//! Certificates that are read whole.

ghost use Rattle.std.specs.Prelude.{◌≡◌, ◌≢◌, ◌-◌, ◌^◌, ◌<◌, ◌≤◌, [], Some, length, IfOk, IfSome, IsSome, IsTrue, OnOk};
ghost use Rattle.cpt_answer.specs.Giving.{Gives};
ghost use Rattle.cpt_cert_file.specs.Texts.{certificate_under, reading_ending};

use cpt_answer::{Cause, Ending};
use cpt_io::{Library, ReadError, read_all};
use cpt_task::{FILE_LIMIT, Limit};
use std::alloc::Global;

fn from_reading(e: ReadError) -> Ending
    ensures value { result ≡ reading_ending e }
{
    match e {
        ReadError::Failed => Ending::Read,
        ReadError::TooLong => Ending::Because(Cause::Passed(Limit::Certificate)),
        ReadError::Memory => Ending::Memory,
    }
}

/// The text of the certificate in the file under the name, of at most 16 MiB.
pub fn certificate_in<L: Library>(alloc: Global, lib: &mut L, name: &str) -> Result<Vec<u8>, Ending>
    requires { L.faults lib.old < 2 ^ 64 - 1 }
    ensures same { L.holds lib.new ≡ L.holds lib.old }
    ensures answer { IfSome (L.holds lib.old) (λ files. Gives (L.steady lib.old) (λ text. text.items) result (λ read. certificate_under files name.now ≡ read)) }
    ensures short { IfOk result (λ text. length text.items ≤ 16777216) }
    ensures failed { result ≡ Err Ending.Read → L.faults lib.old < L.faults lib.new }
    ensures kept { result ≢ Err Ending.Read → L.faults lib.new ≡ L.faults lib.old }
    ensures steady { IsTrue (L.steady lib.old) → IsTrue (L.steady lib.new) }
    ensures end { OnOk result (IsSome (L.holds lib.old) → L.left lib.new ≡ Some []) }
{
    match read_all(alloc, lib, name, FILE_LIMIT) {
        Ok(text) => Ok(text),
        Err(e) => Err(from_reading(e)),
    }
}
