//! What the checker says of a text.

use cpt_cert_accept::Why;
use cpt_cert_read::{Claim, Version};

/// Whether a text is a certificate of a task.
#[derive(Clone, Copy, Debug, PartialEq, Eq)]
pub enum Ruling {
    /// It is, with this claim.
    Accepted(Claim),
    /// It is not: its first fault, by its line from 1 on, and the reason.
    Rejected { line: u64, why: Why },
}

/// What the checker says of a text.
#[derive(Clone, Copy, Debug, PartialEq, Eq)]
pub struct Judged {
    /// The version that the first line names; `None` where it names none.
    pub version: Option<Version>,
    pub ruling: Ruling,
}

/// Why a text could not be judged.
#[derive(Clone, Copy, Debug, PartialEq, Eq)]
pub enum CheckError {
    /// A call on the library failed.
    Failed,
    /// The text has more bytes than were allowed, and no fault stands in the lines that end within them.
    TooLong,
    /// Want of memory.
    Memory,
}
