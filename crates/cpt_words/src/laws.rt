//! A law of words: its contract is what it says, and its body is empty.

ghost use Rattle.cpt_words.specs.Laws.{ReadsWords};

/// Which words are read as which command.
pub fn words_are_read_so()
    ensures { ReadsWords }
{}
