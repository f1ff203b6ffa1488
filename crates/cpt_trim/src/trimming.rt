//! Trimming.

ghost use Rattle.std.specs.Prelude.{◌≡◌, ◌+◌, ◌≤◌, length, map, All, IfOk};
ghost use Rattle.cpt_cert_read.specs.Lines.{HasNoEnd};
ghost use Rattle.cpt_cert_read.specs.Texts.{ended};
ghost use Rattle.cpt_trim.specs.Fates.{AreFound, AreTold};
ghost use Rattle.cpt_trim.specs.Without.{IsAccepted, without};
ghost use Rattle.cpt_trim.specs.Trimming.{IsLess, Trims, TrimsWith};

use crate::fates::{first_fates, lines_of, numbers_of, text_of};
use crate::trimmed::{TrimError, Trimmed};
use crate::trying::drop_needless;
use cpt_cert_form::Version;
use cpt_check::Ruling;
use cpt_check_text::check_text;
use cpt_task::{List, Memory, Task};
use cpt_thin::Fate;
use std::alloc::Global;

/// Drops step lines until each that is left is needed, and answers the numbers of those that are dropped and the text
/// without them.
#[tactic(auto, using(crate::proofs::FateLists::befit_count))]
fn needless_among(
    alloc: Global,
    task: &Task,
    fates: &mut [Fate],
    bodies: &[&[u8]],
    tail: &[u8],
) -> Result<(List<u64>, Vec<u8>), Memory>
    requires told { AreTold task.now fates.old (map (λ b. b.now) bodies.now) tail.now }
    requires ends { All HasNoEnd (map (λ b. b.now) bodies.now) × HasNoEnd tail.now }
    requires size { length (ended (map (λ b. b.now) bodies.now)) + length tail.now ≤ 16777216 }
    requires atoms { length task.now.atoms ≤ 2048 }
    requires actions { length task.now.actions ≤ 4096 }
    ensures { IfOk result (λ found. AreFound task.now (map (λ b. b.now) bodies.now) tail.now found.0 found.1.items) }
{
    drop_needless(alloc, task, fates, bodies, tail)?;
    let numbers = numbers_of(alloc, fates)?;
    let left = text_of(alloc, fates, bodies, tail)?;
    Ok((numbers, left))
}

/// The numbers of step lines without which a certificate is one that has no needless step line, and the text without
/// these lines.
fn needless(alloc: Global, task: &Task, text: &[u8]) -> Result<(List<u64>, Vec<u8>), Memory>
    requires accepted { IsAccepted task.now text.now }
    requires size { length text.now ≤ 16777216 }
    requires atoms { length task.now.atoms ≤ 2048 }
    requires actions { length task.now.actions ≤ 4096 }
    ensures less { IfOk result (λ found. IsLess task.now text.now found.0) }
    ensures left { IfOk result (λ found. found.1.items ≡ without text.now found.0) }
{
    let (bodies, tail) = lines_of(alloc, text)?;
    let mut fates = first_fates(alloc, &bodies)?;
    needless_among(alloc, task, &mut fates, &bodies, tail)
}

/// As `trim`, with the text without the lines that are dropped.
pub fn trim_text(alloc: Global, task: &Task, text: &[u8]) -> Result<(Trimmed, Vec<u8>), TrimError>
    requires size { length text.now ≤ 16777216 }
    requires atoms { length task.now.atoms ≤ 2048 }
    requires actions { length task.now.actions ≤ 4096 }
    ensures { TrimsWith task.now text.now result }
{
    let judged = check_text(alloc, task, text)?;
    match judged.ruling {
        Ruling::Accepted(claim) => {
            let version = judged.version.unwrap_or(Version::One);
            let (dropped, left) = needless(alloc, task, text)?;
            let trimmed = Trimmed {
                version,
                claim,
                dropped,
            };
            Ok((trimmed, left))
        }
        Ruling::Rejected { line, why } => Err(TrimError::Rejected {
            version: judged.version,
            line,
            why,
        }),
    }
}

/// Finds step lines that a certificate does not need: without those that are answered it is a certificate of the same
/// version and with the same claim, and it is none without a further step line.
///
/// The text has at most 16,777,216 bytes. `Rejected` carries its first fault and comes exactly where it is no
/// certificate; `Memory` means want of memory.
pub fn trim(alloc: Global, task: &Task, text: &[u8]) -> Result<Trimmed, TrimError>
    requires size { length text.now ≤ 16777216 }
    requires atoms { length task.now.atoms ≤ 2048 }
    requires actions { length task.now.actions ≤ 4096 }
    ensures { Trims task.now text.now result }
{
    match trim_text(alloc, task, text) {
        Ok((trimmed, _)) => Ok(trimmed),
        Err(e) => Err(e),
    }
}
