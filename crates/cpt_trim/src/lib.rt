//! Certificates without needless step lines.
//!
//! A text that is no certificate is refused with its first fault. Of a certificate step lines are dropped in two ways.
//!
//! First many at once. Those step lines are kept on which a line that closes or branches a node rests, or a step line that
//! is kept: the last on the way to it that changed what it needs. Then, when the last line below a node is read, the steps
//! of the node that are kept are tried from the last to the first: a step is dropped where the lines that are left from
//! the node's first to its last are those of a node over its sheet. The text that is left is then read whole, and it is
//! taken only where it is a certificate.
//!
//! Then line by line, until no line was dropped. A line is needed where a fault comes when the lines behind it are read
//! on without it, before its node is read to its end: then the whole text has that fault. Only where none comes is the
//! whole text read without the line, and the line is dropped where that is a certificate. In the last round nothing
//! was dropped, so each step line that is left was tried over the text that is answered, and that text has no needless
//! step line by what was tried alone: the order of trying does not matter for this, and neither does what the first
//! way dropped.
//!
//! The first way leaves few lines to the second, because a step that is needed stays needed when lines before it are
//! dropped: a step is legal at a sheet between two at which it is legal. Each line is tried over the lines of its node
//! alone, and most that are needed show it within a few lines.
#![tactic(auto)]

mod fates;
mod trimmed;
mod trimming;
mod trying;

pub use cpt_check::Why;
pub use trimmed::{TrimError, Trimmed};
pub use trimming::{trim, trim_text};
