//! The law: its contract is what it says, and its body is empty.

ghost use Rattle.cpt_every_ruling.specs.Laws.{EachTextHasARuling};

/// Each text, of which at most so many bytes are taken, is accepted or rejected, or it is too long. The premise on the
/// task is what each task gives.
pub fn each_text_has_a_ruling()
    ensures { EachTextHasARuling }
{}
