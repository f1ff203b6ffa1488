//! What trimming answers.

ghost use Rattle.std.specs.Prelude.{◌≡◌};
ghost use Rattle.cpt_trim.specs.declared.trimmed.TrimError.{TrimError};

use cpt_cert_accept::Why;
use cpt_cert_form::{Claim, Version};
use cpt_task::{List, Memory};

/// A certificate that is trimmed.
#[derive(Drop)]
pub struct Trimmed {
    pub version: Version,
    pub claim: Claim,
    /// The numbers of the lines that are dropped, from 1 on, in order.
    pub dropped: List<u64>,
}

/// Why a text was not trimmed.
#[derive(Clone, Copy, Debug, PartialEq, Eq)]
pub enum TrimError {
    /// The text is no certificate: the version that its first line names, where it names one, its first fault, by the
    /// line from 1 on, and the reason.
    Rejected {
        version: Option<Version>,
        line: u64,
        why: Why,
    },
    /// Want of memory.
    Memory,
}

impl From<Memory> for TrimError {
    ghost from_gives = { λ _ e. e ≡ TrimError.Memory };

    fn from(_: Memory) -> Self {
        TrimError::Memory
    }
}
