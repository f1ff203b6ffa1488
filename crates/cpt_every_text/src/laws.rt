//! The laws: their contracts are what they say, and their bodies are empty.

ghost use Rattle.cpt_every_text.specs.Laws.{EachTextIsRead, EachTextIsRuled};

/// The lines of each text are read to an outcome: behind them, or at the first fault.
pub fn each_text_is_read()
    ensures { EachTextIsRead }
{}

/// Each text of at most 2^36 bytes is a certificate of the task, or it has a first fault. The premise on the task is
/// what each task gives.
pub fn each_text_is_ruled()
    ensures { EachTextIsRuled }
{}
