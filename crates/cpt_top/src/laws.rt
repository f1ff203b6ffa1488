//! A law of answers: its contract is what it says, and its body is empty.

ghost use Rattle.cpt_top.specs.Commands.{OneAnswer};

/// Words over files have at most one answer, where what they ask for leaves nothing free in it.
pub fn one_answer()
    ensures { OneAnswer }
{}
