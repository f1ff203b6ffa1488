//! A text that comes in pieces, line by line.

ghost use Rattle.std.specs.Prelude.{◌≡◌, ◌<◌, ◌≤◌, [], ◌++◌, length, take, vec_len, IfOk, OnOk, OnErr, MatchBool, ◌≢◌};
ghost use Rattle.cpt_cert_form.specs.Forms.{IsReadAs};
ghost use Rattle.cpt_cert_read.specs.Lines.{kept, Feeds};

use crate::reading::read_line;
use crate::words::cut;
use cpt_cert_form::CertLine;
use cpt_task::Memory;
use std::alloc::Global;
use std::marker::Model;

/// The most bytes that are kept of a line: one more than it may have.
const MOST: usize = 65_537;

/// A reader of lines. It sees a text in pieces that may end anywhere, and keeps at most 65,537 bytes of the line
/// that has not ended.
#[derive(Drop)]
pub struct Lines {
    pending: Vec<u8>,
}

impl Model for Lines {
    ghost use Rattle.std.specs.Prelude.{ℕ, ◌≤◌, List, length};

    ghost Value = { List ℕ };

    ghost view = { λ a. a.pending.items };

    ghost invariant = { λ a. length a.pending.items ≤ 65537 };
}

impl Lines {
    /// Nothing was read yet.
    pub fn new(alloc: Global) -> Result<Lines, Memory>
        ensures { IfOk result (λ lines. lines ≡ []) }
    {
        let pending = Vec::with_capacity(alloc, MOST)?;
        Ok(Lines { pending })
    }

    /// Bytes stand after the last line end.
    pub fn unfinished(&self) -> bool
        ensures { MatchBool result (self.now ≢ []) (self.now ≡ []) }
    {
        !self.pending.is_empty()
    }

    /// Takes the piece up to its first line end and gives that line, or takes the whole piece where no line ends in
    /// it. Answers how many bytes were taken. After `Memory` nothing was taken.
    pub fn feed(&mut self, piece: &[u8]) -> Result<(usize, Option<CertLine>), Memory>
        ensures exact { Feeds self.old self.new piece.now result }
        ensures within { IfOk result (λ taken. taken.0 ≤ length piece.now) }
    {
        match cut(b'\n', piece) {
            None => {
                keep(&mut self.pending, piece)?;
                Ok((piece.len(), None))
            }
            Some((body, _)) => {
                let line = finish(&mut self.pending, body)?;
                Ok((body.len() + 1, Some(line)))
            }
        }
    }
}

/// The front of the bytes, at most so many.
fn front(most: usize, bytes: &[u8]) -> &[u8]
    ensures { result.now ≡ take most bytes.now }
{
    if bytes.len() <= most {
        bytes
    } else {
        &bytes[..most]
    }
}

/// Puts the bytes behind those that are pending, as far as there is room. After `Memory` none was put.
fn keep(pending: &mut Vec<u8>, more: &[u8]) -> Result<(), Memory>
    requires { length pending.old.items ≤ 65537 }
    ensures ok { OnOk result (pending.new.items ≡ kept (pending.old.items ++ more.now)) }
    ensures err { OnErr result (pending.new.items ≡ pending.old.items) }
    ensures few { length pending.new.items ≤ 65537 }
{
    let room = MOST - pending.len();
    pending.extend_from_slice(front(room, more))?;
    Ok(())
}

/// Reads the line of the pending bytes and these, and leaves none pending. After `Memory` they are as before.
fn finish(pending: &mut Vec<u8>, body: &[u8]) -> Result<CertLine, Memory>
    requires { length pending.old.items ≤ 65537 }
    ensures read { IfOk result (λ line. IsReadAs (kept (pending.old.items ++ body.now)) line) }
    ensures ok { OnOk result (pending.new.items ≡ []) }
    ensures err { OnErr result (pending.new.items ≡ pending.old.items) }
{
    let before = pending.len();
    keep(pending, body)?;
    let alloc = *pending.allocator();
    match read_line(alloc, pending.as_slice()) {
        Ok(line) => {
            pending.clear();
            Ok(line)
        }
        Err(e) => {
            pending.truncate(before);
            Err(e)
        }
    }
}
