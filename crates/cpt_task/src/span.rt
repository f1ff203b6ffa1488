//! A moment or a distance, or `Never`.

/// `Never` is greater than every `At`, and `Never` plus anything is `Never`.
#[derive(Clone, Copy, Debug, PartialEq, Eq)]
pub enum Span {
    /// This moment, or this far.
    At(u64),
    /// At no moment.
    Never,
}
