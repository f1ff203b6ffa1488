//! What becomes of the lines of a text.

ghost use Rattle.std.specs.Prelude.{◌≡◌, ◌++◌, List, [], ◌∷◌, false, if◌then◌else◌, length, map, All, IfOk, OnOk, MatchBool};
ghost use Rattle.std.specs.List.{AllZip};
ghost use Rattle.cpt_line.specs.Lines.{split};
ghost use Rattle.cpt_trim.specs.Without.{SaysStep};
ghost use Rattle.cpt_thin.specs.Fates.{is_dropped};
ghost use Rattle.cpt_trim.specs.Fates.{Befits, is_step, numbers_of, text_of};

use cpt_cert_read::{CertLine, read_line};
use cpt_line::first_line;
use cpt_sheet::NodeLine;
use cpt_task::{List, Memory};
use cpt_thin::{Fate, is_dropped};
use std::alloc::Global;

/// The lines that end in the text, and what stands behind the last line feed.
pub fn lines_of(alloc: Global, text: &[u8]) -> Result<(Vec<&[u8]>, &[u8]), Memory>
    ensures { IfOk result (λ parts. (map (λ b. b.now) parts.0.items, parts.1.now) ≡ split text.now) }
{
    let mut bodies = Vec::new(alloc);
    let mut rest = text;
    while let Some((body, after)) = first_line(rest) {
        bodies.push(body)?;
        rest = after;
    }
    Ok((bodies, rest))
}

fn is_step(line: &CertLine) -> bool
    ensures { result ≡ is_step line.now }
{
    matches!(line, CertLine::Node(NodeLine::Narrow(_)))
}

/// Whether the line is a step line.
fn says_step(alloc: Global, body: &[u8]) -> Result<bool, Memory>
    ensures { IfOk result (λ step. MatchBool step (SaysStep body.now) (SaysStep body.now → ⊥)) }
{
    let line = read_line(alloc, body)?;
    Ok(is_step(&line))
}

/// What becomes of the line at first: it is not dropped.
fn first_fate(alloc: Global, body: &[u8]) -> Result<Fate, Memory>
    ensures befits { IfOk result (λ fate. Befits fate body.now) }
    ensures left { IfOk result (λ fate. is_dropped fate ≡ false) }
{
    if says_step(alloc, body)? {
        return Ok(Fate::Kept);
    }
    Ok(Fate::Fixed)
}

/// What becomes of lines at first: none is dropped.
pub fn first_fates(alloc: Global, bodies: &[&[u8]]) -> Result<Vec<Fate>, Memory>
    ensures befit { IfOk result (λ fates. AllZip Befits fates.items (map (λ b. b.now) bodies.now)) }
    ensures left { IfOk result (λ fates. All (λ fate. is_dropped fate ≡ false) fates.items) }
{
    let mut fates = Vec::new(alloc);
    for body in bodies {
        let fate = first_fate(alloc, body)?;
        fates.push(fate)?;
    }
    Ok(fates)
}

/// Puts the line behind the text, where it is not dropped.
fn put_line(text: &mut Vec<u8>, fate: Fate, body: &[u8]) -> Result<(), Memory>
    ensures { OnOk result (text.new.items ≡ text.old.items ++ (if is_dropped fate then [] else body.now ++ 10 ∷ [])) }
{
    if is_dropped(fate) {
        return Ok(());
    }
    text.extend_from_slice(body)?;
    text.push(b'\n')?;
    Ok(())
}

/// The text of the lines that are not dropped.
pub fn text_of(
    alloc: Global,
    fates: &[Fate],
    bodies: &[&[u8]],
    tail: &[u8],
) -> Result<Vec<u8>, Memory>
    requires { length fates.now ≡ length bodies.now }
    ensures { IfOk result (λ text. text.items ≡ text_of fates.now (map (λ b. b.now) bodies.now) tail.now) }
{
    let mut text = Vec::new(alloc);
    for (place, body) in bodies.iter().enumerate() {
        put_line(&mut text, fates[place], body)?;
    }
    text.extend_from_slice(tail)?;
    Ok(text)
}

/// Puts the number behind the others, where the line is dropped.
fn put_number(numbers: &mut Vec<u64>, fate: Fate, number: u64) -> Result<(), Memory>
    ensures { OnOk result (numbers.new.items ≡ numbers.old.items ++ (if is_dropped fate then number ∷ [] else [])) }
{
    if is_dropped(fate) {
        numbers.push(number)?;
    }
    Ok(())
}

/// The numbers of the lines that are dropped, from 1 on.
#[tactic(auto, using(crate::proofs::FateLists::numbers_more))]
pub fn numbers_of(alloc: Global, fates: &[Fate]) -> Result<List<u64>, Memory>
    ensures { IfOk result (λ numbers. numbers ≡ numbers_of 1 fates.now) }
{
    let mut numbers = Vec::new(alloc);
    for (place, fate) in fates.iter().enumerate() {
        put_number(&mut numbers, *fate, place as u64 + 1)?;
    }
    Ok(List::from_vec(numbers))
}
