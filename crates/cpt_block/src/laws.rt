//! What the cells of a token more make of a sheet.

ghost use Rattle.cpt_block.specs.Blocks.{BringsByParts, Growing};

/// Behind the cells of a sheet, the block of a token more makes of it the sheet with this token.
pub fn growing()
    ensures { Growing }
{}

/// A decision that brings a token is made in parts.
pub fn brings_by_parts()
    ensures { BringsByParts }
{}
