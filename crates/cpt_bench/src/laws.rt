//! A law of answers: its contract is what it says, and its body is empty.

ghost use Rattle.cpt_bench.specs.Laws.{OneBench};

/// A made problem has one answer, but that a certificate of its plan may be too long.
pub fn one_answer_of_bench()
    ensures { OneBench }
{}
