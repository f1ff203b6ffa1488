//! A law of listings: its contract is what it says, and its body is empty.

ghost use Rattle.cpt_plain.specs.Laws.{KeptTasksArePlain};

/// The kept part of the ground task of a sound domain and a problem that fits it is plain.
pub fn kept_tasks_are_plain()
    ensures { KeptTasksArePlain }
{}
