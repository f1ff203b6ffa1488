//! The lines of a text that comes in pieces.

ghost use Rattle.std.specs.Prelude.{◌++◌, List, ℕ, IfOk, OnOk};
ghost use Rattle.std.specs.List.{flat_map};
ghost use Rattle.cpt_cert_read.specs.Texts.{AreLinesOf, AreFinished};

use crate::lines::Lines;
use cpt_cert_form::CertLine;
use cpt_task::Memory;
use std::alloc::Global;

/// Reads a piece more, and puts the lines that end in it behind those that are read.
fn read_piece(lines: &mut Lines, piece: &[u8], read: &mut Vec<CertLine>) -> Result<(), Memory>
    ensures { OnOk result ((text : List ℕ) → AreFinished text read.old.items lines.old → AreFinished (text ++ piece.now) read.new.items lines.new) }
{
    let mut at = 0;
    loop {
        let (taken, line) = lines.feed(&piece[at..])?;
        let Some(line) = line else {
            return Ok(());
        };
        read.push(line)?;
        at += taken;
    }
}

/// The lines of the text that these pieces make up, however it is cut. Where its last line lacks its line feed, that
/// line has no form.
pub fn read_pieces(alloc: Global, pieces: &[Vec<u8>]) -> Result<Vec<CertLine>, Memory>
    ensures { IfOk result (λ read. AreLinesOf (flat_map (λ piece. piece.items) pieces.now) read.items) }
{
    let mut lines = Lines::new(alloc)?;
    let mut read = Vec::new(alloc);
    for piece in pieces {
        read_piece(&mut lines, piece, &mut read)?;
    }
    if lines.unfinished() {
        read.push(CertLine::Strange)?;
    }
    Ok(read)
}
