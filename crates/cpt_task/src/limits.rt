//! The limits of tasks and of the files that give them.

/// The most atoms that a kept task has.
pub const ATOM_LIMIT: usize = 2_048;

/// The most actions that a kept task has.
pub const ACTION_LIMIT: usize = 4_096;

/// The longest duration of an action.
pub const DURATION_LIMIT: u32 = 100_000;

/// The most conditions of an action, and of its adds and of its deletes, as they are written.
pub const CONDITION_LIMIT: usize = 64;

/// The most bytes of a domain, of a problem, of a task and of a plan.
pub const FILE_LIMIT: u64 = 16_777_216;

/// The most bytes of a certificate.
pub const CERTIFICATE_LIMIT: u64 = 68_719_476_736;
