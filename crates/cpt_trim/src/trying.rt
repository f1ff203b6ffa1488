//! Step lines that are tried.

ghost use Rattle.std.specs.Prelude.{◌≡◌, ◌+◌, ◌<◌, ◌≤◌, ◌++◌, ◌||◌, ℕ, List, ⊤, Some, length, map, take, drop, slice_get, All, IfOk, OnOk, MatchBool};
ghost use Rattle.cpt_cert_form.specs.declared.forms.CertLine.{CertLine};
ghost use Rattle.cpt_cert_read.specs.Lines.{HasNoEnd};
ghost use Rattle.cpt_thin.specs.declared.fates.Fate.{Fate};
ghost use Rattle.cpt_cert_read.specs.Texts.{ended};
ghost use Rattle.cpt_trim.specs.Without.{IsAccepted};
ghost use Rattle.cpt_trim.specs.Fates.{AreLines, AreTold, Drops, IsNeeded, kept_in, text_of};
ghost use Rattle.cpt_thin.specs.Fronts.{MayBeFrontOf, read_of};
ghost use Rattle.cpt_thin.specs.Dooms.{IsFaulty};

use crate::fates::text_of;
use cpt_cert_read::CertLine;
use cpt_check::Ruling;
use cpt_check_text::check_text;
use cpt_task::{Memory, Task};
use cpt_thin::{Fate, Front, begin_front, is_doomed_at, is_kept_at, pass_line, read_lines, thin};
use std::alloc::Global;

/// Whether the text is a certificate of the task.
fn is_certificate(alloc: Global, task: &Task, text: &[u8]) -> Result<bool, Memory>
    requires size { length text.now ≤ 16777216 }
    requires atoms { length task.now.atoms ≤ 2048 }
    requires actions { length task.now.actions ≤ 4096 }
    ensures { IfOk result (λ accepted. MatchBool accepted (IsAccepted task.now text.now) (IsAccepted task.now text.now → ⊥)) }
{
    let _actions = task.actions();
    let judged = check_text(alloc, task, text)?;
    match judged.ruling {
        Ruling::Accepted(_) => Ok(true),
        Ruling::Rejected { .. } => Ok(false),
    }
}

/// Whether the text of the lines that are not dropped is a certificate of the task.
fn stands(
    alloc: Global,
    task: &Task,
    fates: &[Fate],
    bodies: &[&[u8]],
    tail: &[u8],
) -> Result<bool, Memory>
    requires each { length fates.now ≡ length bodies.now }
    requires size { length (ended (map (λ b. b.now) bodies.now)) + length tail.now ≤ 16777216 }
    requires atoms { length task.now.atoms ≤ 2048 }
    requires actions { length task.now.actions ≤ 4096 }
    ensures { IfOk result (λ accepted. MatchBool accepted (IsAccepted task.now (text_of fates.now (map (λ b. b.now) bodies.now) tail.now)) (IsAccepted task.now (text_of fates.now (map (λ b. b.now) bodies.now) tail.now) → ⊥)) }
{
    let text = text_of(alloc, fates, bodies, tail)?;
    is_certificate(alloc, task, &text)
}

/// Drops the line at the place, where it is a step line that is kept and the text is a certificate without it, and
/// answers whether it does.
fn try_line(
    alloc: Global,
    task: &Task,
    fates: &mut [Fate],
    bodies: &[&[u8]],
    tail: &[u8],
    place: usize,
) -> Result<bool, Memory>
    requires place { place < length fates.old }
    requires each { length fates.old ≡ length bodies.now }
    requires size { length (ended (map (λ b. b.now) bodies.now)) + length tail.now ≤ 16777216 }
    requires atoms { length task.now.atoms ≤ 2048 }
    requires actions { length task.now.actions ≤ 4096 }
    ensures { IfOk result (λ dropped. MatchBool dropped (Drops task.now fates.old (map (λ b. b.now) bodies.now) tail.now place fates.new) ((fates.new ≡ fates.old) × IsNeeded task.now fates.old (map (λ b. b.now) bodies.now) tail.now place)) }
{
    if !is_kept_at(fates, place) {
        return Ok(false);
    }
    fates[place] = Fate::Dropped;
    if stands(alloc, task, fates, bodies, tail)? {
        return Ok(true);
    }
    fates[place] = Fate::Kept;
    Ok(false)
}

/// Whether it is known, before a line behind it is at fault, that the text without the line at the place is no certificate.
fn is_known(
    alloc: Global,
    task: &Task,
    front: &Option<Front>,
    fates: &[Fate],
    lines: &[CertLine],
    place: usize,
) -> Result<bool, Memory>
    requires front { MayBeFrontOf task.now (read_of (take place fates.now) (take place lines.now)) front.now }
    requires place { place < length lines.now }
    requires each { length fates.now ≡ length lines.now }
    requires size { length lines.now ≤ 16777216 }
    ensures { IfOk result (λ known. MatchBool known ((rest : List CertLine) → IsFaulty task.now (read_of (take place fates.now) (take place lines.now) ++ (read_of (drop (place + 1) fates.now) (drop (place + 1) lines.now) ++ rest))) ⊤) }
{
    match front {
        Some(front) => is_doomed_at(alloc, task, &front.stage, fates, lines, place + 1),
        None => Ok(false),
    }
}

/// As `try_line`. The whole text is read only where it is not known before that the line is needed.
fn try_place(
    alloc: Global,
    task: &Task,
    front: &Option<Front>,
    fates: &mut [Fate],
    bodies: &[&[u8]],
    lines: &[CertLine],
    tail: &[u8],
    place: usize,
) -> Result<bool, Memory>
    requires front { MayBeFrontOf task.now (read_of (take place fates.old) (take place lines.now)) front.now }
    requires lines { AreLines (map (λ b. b.now) bodies.now) tail.now lines.now }
    requires place { place < length fates.old }
    requires each { length fates.old ≡ length bodies.now }
    requires size { length (ended (map (λ b. b.now) bodies.now)) + length tail.now ≤ 16777216 }
    requires atoms { length task.now.atoms ≤ 2048 }
    requires actions { length task.now.actions ≤ 4096 }
    ensures { IfOk result (λ dropped. MatchBool dropped (Drops task.now fates.old (map (λ b. b.now) bodies.now) tail.now place fates.new) ((fates.new ≡ fates.old) × IsNeeded task.now fates.old (map (λ b. b.now) bodies.now) tail.now place)) }
{
    let _actions = task.actions();
    if !is_kept_at(fates, place) {
        return Ok(false);
    }
    if is_known(alloc, task, front, fates, lines, place)? {
        return Ok(false);
    }
    try_line(alloc, task, fates, bodies, tail, place)
}

/// As `try_place`, with what is still to be read behind the line.
fn take_place(
    alloc: Global,
    task: &Task,
    front: Option<Front>,
    fates: &mut [Fate],
    bodies: &[&[u8]],
    lines: &[CertLine],
    tail: &[u8],
    place: usize,
) -> Result<(bool, Option<Front>), Memory>
    requires front { MayBeFrontOf task.now (read_of (take place fates.old) (take place lines.now)) front }
    requires lines { AreLines (map (λ b. b.now) bodies.now) tail.now lines.now }
    requires place { place < length fates.old }
    requires line { place < length lines.now }
    requires each { length fates.old ≡ length bodies.now }
    requires size { length (ended (map (λ b. b.now) bodies.now)) + length tail.now ≤ 16777216 }
    requires atoms { length task.now.atoms ≤ 2048 }
    requires actions { length task.now.actions ≤ 4096 }
    ensures tried { IfOk result (λ r. MatchBool r.0 (Drops task.now fates.old (map (λ b. b.now) bodies.now) tail.now place fates.new) ((fates.new ≡ fates.old) × IsNeeded task.now fates.old (map (λ b. b.now) bodies.now) tail.now place)) }
    ensures front { IfOk result (λ r. MayBeFrontOf task.now (read_of (take (place + 1) fates.new) (take (place + 1) lines.now)) r.1) }
{
    let dropped = try_place(alloc, task, &front, fates, bodies, lines, tail, place)?;
    let next = pass_line(alloc, task, front, fates[place], &lines[place])?;
    Ok((dropped, next))
}

fn either(one: bool, other: bool) -> bool
    ensures { result ≡ (one || other) }
{
    one || other
}

/// Tries each line, and answers whether one was dropped.
fn try_all(
    alloc: Global,
    task: &Task,
    fates: &mut [Fate],
    bodies: &[&[u8]],
    lines: &[CertLine],
    tail: &[u8],
) -> Result<bool, Memory>
    requires told { AreTold task.now fates.old (map (λ b. b.now) bodies.now) tail.now }
    requires lines { AreLines (map (λ b. b.now) bodies.now) tail.now lines.now }
    requires size { length (ended (map (λ b. b.now) bodies.now)) + length tail.now ≤ 16777216 }
    requires atoms { length task.now.atoms ≤ 2048 }
    requires actions { length task.now.actions ≤ 4096 }
    ensures told { IfOk result (λ _. AreTold task.now fates.new (map (λ b. b.now) bodies.now) tail.now) }
    ensures fewer { IfOk result (λ dropped. MatchBool dropped (kept_in fates.new < kept_in fates.old) ((place : ℕ) → IsNeeded task.now fates.new (map (λ b. b.now) bodies.now) tail.now place)) }
{
    let mut dropped = false;
    let mut front = Some(begin_front());
    for place in 0..lines.len() {
        let (one, next) = take_place(alloc, task, front, fates, bodies, lines, tail, place)?;
        front = next;
        dropped = either(dropped, one);
    }
    Ok(dropped)
}

/// Drops lines of which it is seen node by node that they are not needed.
fn drop_many(
    alloc: Global,
    task: &Task,
    fates: &mut [Fate],
    bodies: &[&[u8]],
    lines: &[CertLine],
    tail: &[u8],
) -> Result<(), Memory>
    requires told { AreTold task.now fates.old (map (λ b. b.now) bodies.now) tail.now }
    requires lines { AreLines (map (λ b. b.now) bodies.now) tail.now lines.now }
    requires size { length (ended (map (λ b. b.now) bodies.now)) + length tail.now ≤ 16777216 }
    requires atoms { length task.now.atoms ≤ 2048 }
    requires actions { length task.now.actions ≤ 4096 }
    ensures { OnOk result (AreTold task.now fates.new (map (λ b. b.now) bodies.now) tail.now) }
{
    let thinner = thin(alloc, task, fates, lines)?;
    if !stands(alloc, task, &thinner, bodies, tail)? {
        return Ok(());
    }
    fates.copy_from_slice(&thinner);
    Ok(())
}

/// Drops lines until each that is left is needed.
pub fn drop_needless(
    alloc: Global,
    task: &Task,
    fates: &mut [Fate],
    bodies: &[&[u8]],
    tail: &[u8],
) -> Result<(), Memory>
    requires told { AreTold task.now fates.old (map (λ b. b.now) bodies.now) tail.now }
    requires ends { All HasNoEnd (map (λ b. b.now) bodies.now) × HasNoEnd tail.now }
    requires size { length (ended (map (λ b. b.now) bodies.now)) + length tail.now ≤ 16777216 }
    requires atoms { length task.now.atoms ≤ 2048 }
    requires actions { length task.now.actions ≤ 4096 }
    ensures told { IfOk result (λ _. AreTold task.now fates.new (map (λ b. b.now) bodies.now) tail.now) }
    ensures needed { IfOk result (λ _. (place : ℕ) → IsNeeded task.now fates.new (map (λ b. b.now) bodies.now) tail.now place) }
{
    let lines = read_lines(alloc, bodies)?;
    drop_many(alloc, task, fates, bodies, &lines, tail)?;
    'rounds: while try_all(alloc, task, fates, bodies, &lines, tail)? {}
    Ok(())
}
