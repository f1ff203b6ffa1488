//! A law of kept parts: its contract is what it says, and its body is empty.

ghost use Rattle.cpt_kept.specs.Kept.{KeptPartsStand};

/// The kept part of an accepted task is plain, and its plans are those of the ground task and of the reading with absence.
pub fn kept_parts_stand_for_their_tasks()
    ensures { KeptPartsStand }
{}
