//! What one line of a plan text says.

ghost use Rattle.std.specs.Prelude.{◌≡◌, ◌≤◌, ◌++◌, ◌∷◌, [], false, length, take, drop, Some, None, MatchOption, OnOk};
ghost use Rattle.cpt_plan_text.specs.declared.line.LineError.TheVariants.{Memory};
ghost use Rattle.cpt_plan_text.specs.Grammar.{after_byte, after_fraction, after_zeros, bracketed, duration_in, entry_in, is_blank, is_end, line_in, lower, name_in, name_rest, number_in, prefixed, skip_blanks, spaced, words_in, zero_count};
ghost use Rattle.cpt_plan_text.specs.Parsing.{Parses};

use cpt_line::{capped_number, count_digits, is_word_byte};
use cpt_task::{List, Name};
use std::alloc::{AllocError, AllocFailed, Global};

/// Why a line is not read.
#[derive(Clone, Copy, Debug, PartialEq, Eq)]
pub enum LineError {
    /// The line is not in the grammar.
    Form,
    Memory,
}

impl From<AllocError> for LineError {
    ghost from_gives = { λ _ e. e ≡ Memory };

    fn from(_: AllocError) -> Self {
        LineError::Memory
    }
}

impl<T: Drop> From<AllocFailed<T>> for LineError {
    ghost from_gives = { λ _ e. e ≡ Memory };

    fn from(_: AllocFailed<T>) -> Self {
        LineError::Memory
    }
}

/// An entry of a plan text: the start, the name in its one spelling, and the duration where one is written.
/// A number above 4,294,967,295 counts as 4,294,967,296.
#[derive(Debug, Drop)]
pub struct Entry {
    pub start: u64,
    pub name: Name,
    pub dur: Option<u64>,
}

fn is_blank(b: u8) -> bool
    ensures { result ≡ is_blank b }
{
    b == b' ' || b == b'\t' || b == b'\r'
}

fn skip_blanks(bytes: &[u8]) -> &[u8]
    ensures { result.now ≡ skip_blanks bytes.now }
{
    for (i, b) in bytes.iter().enumerate() {
        if !is_blank(*b) {
            return &bytes[i..];
        }
    }
    &[]
}

fn is_end(bytes: &[u8]) -> bool
    ensures { result ≡ is_end bytes.now }
{
    match bytes {
        [] => true,
        [b, ..] => *b == b';',
    }
}

/// What follows the byte, where only blanks stand before it.
#[tactic(auto, unfolding(crate::specs::Grammar::after_byte))]
fn after_byte(mark: u8, bytes: &[u8]) -> Option<&[u8]>
    ensures { MatchOption result (after_byte mark bytes.now ≡ None) (λ x. after_byte mark bytes.now ≡ Some x.now) }
{
    match skip_blanks(bytes) {
        [] => None,
        [b, rest @ ..] => { if *b == mark { Some(rest) } else { None } }
    }
}

fn count_zeros(bytes: &[u8]) -> usize
    ensures count { result ≡ zero_count bytes.now }
    ensures within { result ≤ length bytes.now }
{
    for (i, b) in bytes.iter().enumerate() {
        if *b != b'0' {
            return i;
        }
    }
    bytes.len()
}

#[tactic(auto, unfolding(crate::specs::Grammar::after_zeros))]
fn after_zeros(bytes: &[u8]) -> Option<&[u8]>
    ensures { MatchOption result (after_zeros bytes.now ≡ None) (λ x. after_zeros bytes.now ≡ Some x.now) }
{
    let count = count_zeros(bytes);
    if count == 0 {
        return None;
    }
    Some(&bytes[count..])
}

fn after_fraction(bytes: &[u8]) -> Option<&[u8]>
    ensures { MatchOption result (after_fraction bytes.now ≡ None) (λ x. after_fraction bytes.now ≡ Some x.now) }
{
    match bytes {
        [] => Some(bytes),
        [b, rest @ ..] => {
            if *b == b'.' {
                after_zeros(rest)
            } else {
                Some(bytes)
            }
        }
    }
}

/// The number at the front, and what follows it.
#[tactic(auto, unfolding(crate::specs::Grammar::number_in))]
fn number_of(bytes: &[u8]) -> Option<(u64, &[u8])>
    ensures { MatchOption result (number_in bytes.now ≡ None) (λ x. number_in bytes.now ≡ Some (x.0, x.1.now)) }
{
    let count = count_digits(bytes);
    if count == 0 {
        return None;
    }
    let rest = after_fraction(&bytes[count..])?;
    Some((capped_number(&bytes[..count], 4_294_967_296), rest))
}

fn lower(b: u8) -> u8
    ensures { result ≡ lower b }
{
    if b.is_ascii_uppercase() { b + 32 } else { b }
}

fn push_spaced(name: &mut Vec<u8>, gap: bool, b: u8) -> Result<(), AllocError>
    ensures { OnOk result (name.new.items ≡ name.old.items ++ spaced gap b) }
{
    if gap {
        name.push(b' ')?;
    }
    name.push(b)?;
    Ok(())
}

/// Appends the rest of a name, from behind a byte of a word, and answers what follows it.
fn push_rest<'a>(name: &mut Vec<u8>, bytes: &'a [u8]) -> Result<&'a [u8], LineError>
    ensures { Parses (λ rest. (name.new.items, rest.now)) result (prefixed name.old.items (name_rest false bytes.now)) }
{
    let mut gap = false;
    for (i, b) in bytes.iter().enumerate() {
        if *b == b')' {
            name.push(b')')?;
            return Ok(&bytes[i + 1..]);
        }
        if is_blank(*b) {
            gap = true;
        } else {
            let b = lower(*b);
            if !is_word_byte(b) {
                return Err(LineError::Form);
            }
            push_spaced(name, gap, b)?;
            gap = false;
        }
    }
    Err(LineError::Form)
}

fn words_of(alloc: Global, bytes: &[u8]) -> Result<(Name, &[u8]), LineError>
    ensures { Parses (λ x. (x.0, x.1.now)) result (words_in bytes.now) }
{
    let [first, rest @ ..] = bytes else {
        return Err(LineError::Form);
    };
    let first = lower(*first);
    if !is_word_byte(first) {
        return Err(LineError::Form);
    }
    let mut name = Vec::new(alloc);
    name.push(b'(')?;
    name.push(first)?;
    let rest = push_rest(&mut name, rest)?;
    Ok((List::from_vec(name), rest))
}

/// A name in its one spelling, and what follows it.
#[tactic(auto, unfolding(crate::specs::Grammar::name_in))]
fn name_of(alloc: Global, bytes: &[u8]) -> Result<(Name, &[u8]), LineError>
    ensures { Parses (λ x. (x.0, x.1.now)) result (name_in bytes.now) }
{
    match after_byte(b'(', bytes) {
        Some(inside) => words_of(alloc, skip_blanks(inside)),
        None => Err(LineError::Form),
    }
}

#[tactic(auto, unfolding(crate::specs::Grammar::bracketed))]
fn bracketed(bytes: &[u8]) -> Option<(Option<u64>, &[u8])>
    ensures { MatchOption result (bracketed bytes.now ≡ None) (λ x. bracketed bytes.now ≡ Some (x.0, x.1.now)) }
{
    let (dur, rest) = number_of(skip_blanks(bytes))?;
    let rest = after_byte(b']', rest)?;
    Some((Some(dur), rest))
}

/// The duration in brackets, where one stands, and what follows.
#[tactic(auto, unfolding(crate::specs::Grammar::duration_in))]
fn duration_of(bytes: &[u8]) -> Option<(Option<u64>, &[u8])>
    ensures { MatchOption result (duration_in bytes.now ≡ None) (λ x. duration_in bytes.now ≡ Some (x.0, x.1.now)) }
{
    match after_byte(b'[', bytes) {
        Some(inside) => bracketed(inside),
        None => Some((None, bytes)),
    }
}

#[tactic(auto, unfolding(crate::specs::Grammar::entry_in))]
fn entry_of(alloc: Global, line: &[u8]) -> Result<Entry, LineError>
    ensures { Parses (λ e. e) result (entry_in line.now) }
{
    let Some((start, rest)) = number_of(skip_blanks(line)) else {
        return Err(LineError::Form);
    };
    let Some(rest) = after_byte(b':', rest) else {
        return Err(LineError::Form);
    };
    let (name, rest) = name_of(alloc, rest)?;
    let Some((dur, rest)) = duration_of(rest) else {
        return Err(LineError::Form);
    };
    if !is_end(skip_blanks(rest)) {
        return Err(LineError::Form);
    }
    Ok(Entry { start, name, dur })
}

/// What the line says: an entry, or nothing where it is blank or a comment.
#[tactic(auto, unfolding(crate::specs::Grammar::line_in))]
pub fn line_of(alloc: Global, line: &[u8]) -> Result<Option<Entry>, LineError>
    ensures { Parses (λ e. e) result (line_in line.now) }
{
    if is_end(skip_blanks(line)) {
        return Ok(None);
    }
    Ok(Some(entry_of(alloc, line)?))
}
