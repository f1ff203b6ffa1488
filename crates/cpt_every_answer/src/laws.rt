//! The law: its contract is what it says, and its body is empty.

ghost use Rattle.cpt_every_answer.specs.Laws.{EachIsAnswered};

/// Words that ask to judge a plan over a task text, or for `validate`, `ground`, `check`, `explain-cert` or `export` over
/// an accepted domain and an accepted problem, or for no command, have one answer over the files, and no other.
pub fn each_is_answered()
    ensures { EachIsAnswered }
{}
