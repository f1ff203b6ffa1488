//! What becomes of the lines of a text.

ghost use Rattle.std.specs.Prelude.{◌≡◌, Some, slice_get, MatchBool};
ghost use Rattle.cpt_thin.specs.Fates.{is_dropped};

/// What becomes of a line.
#[derive(Clone, Copy)]
pub enum Fate {
    /// It is no step line.
    Fixed,
    /// It is a step line that is not dropped.
    Kept,
    /// It is a step line that is dropped.
    Dropped,
}

/// Whether the line is dropped.
pub fn is_dropped(fate: Fate) -> bool
    ensures { result ≡ is_dropped fate }
{
    matches!(fate, Fate::Dropped)
}

/// Whether the line at the place is a step line that is kept.
pub fn is_kept_at(fates: &[Fate], place: usize) -> bool
    ensures { MatchBool result (slice_get fates.now place ≡ Some Fate.Kept) (slice_get fates.now place ≡ Some Fate.Kept → ⊥) }
{
    matches!(fates.get(place), Some(Fate::Kept))
}

/// What becomes of the line at the place. What is no line stays.
pub(crate) fn fate_at(fates: &[Fate], place: usize) -> Fate {
    match fates.get(place) {
        Some(fate) => *fate,
        None => Fate::Fixed,
    }
}
