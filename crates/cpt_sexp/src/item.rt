//! Words and groups by their bytes, and why a text has none.

use std::alloc::{AllocError, AllocFailed};

/// A word or a group of a text. Bytes are counted from 0; `to` is the byte after the item.
#[derive(Clone, Copy, Debug, PartialEq, Eq)]
pub enum Item {
    /// A longest run of bytes other than blanks, parentheses and semicolons.
    Word { from: u32, to: u32 },
    /// A group in parentheses, whose items follow it. `next` is the number of the first item after the group.
    Group { from: u32, to: u32, next: u32 },
}

/// The first fault of a text, by its byte.
#[derive(Clone, Copy, Debug, PartialEq, Eq)]
pub enum SexpError {
    /// Outside comments a byte that is no blank and not from 0x21 to 0x7e.
    BadByte(u32),
    /// A closing parenthesis where no group is open. It closes nothing.
    Unopened(u32),
    /// The first opening parenthesis whose group is not closed.
    Unclosed(u32),
    /// An opening parenthesis inside 64 groups.
    Deep(u32),
    /// Memory ran out.
    Memory,
}

impl From<AllocError> for SexpError {
    ghost use Rattle.cpt_sexp.specs.declared.item.SexpError.TheVariants.{Memory};
    ghost use Rattle.std.specs.Prelude.{◌≡◌};

    ghost from_gives = { λ _ e. e ≡ Memory };

    fn from(_: AllocError) -> Self {
        SexpError::Memory
    }
}

impl<T: Drop> From<AllocFailed<T>> for SexpError {
    ghost use Rattle.cpt_sexp.specs.declared.item.SexpError.TheVariants.{Memory};
    ghost use Rattle.std.specs.Prelude.{◌≡◌};

    ghost from_gives = { λ _ e. e ≡ Memory };

    fn from(_: AllocFailed<T>) -> Self {
        SexpError::Memory
    }
}
