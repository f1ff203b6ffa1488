//! Parses a text.

ghost use Rattle.std.specs.Prelude.{◌≡◌, ◌≤◌, ◌^◌, length, map, IfOk};
ghost use Rattle.std.specs.Char.{to_ascii_lowercase};
ghost use Rattle.cpt_sexp.specs.Parsing.{Parses};

use crate::forest::{Forest, forest_of};
use crate::item::SexpError;
use crate::reading::read;
use std::alloc::{AllocError, Global};

fn in_lower_case(alloc: Global, text: &[u8]) -> Result<Vec<u8>, AllocError>
    ensures { IfOk result (λ lower. lower.items ≡ map to_ascii_lowercase text.now) }
{
    text.iter().map(|b| b.to_ascii_lowercase()).collect(alloc)
}

/// The words and groups of the text, or its first fault.
pub fn parse(alloc: Global, text: &[u8]) -> Result<Forest, SexpError>
    requires { length text.now ≤ 2 ^ 24 }
    ensures { Parses text.now result }
{
    let items = read(alloc, text)?;
    let lower = in_lower_case(alloc, text)?;
    Ok(forest_of(items, lower))
}
