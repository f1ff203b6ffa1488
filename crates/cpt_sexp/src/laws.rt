//! Laws of the grammar and of the faults.

ghost use Rattle.std.specs.Prelude.{◌≡◌, ℕ, List};
ghost use Rattle.cpt_sexp.specs.declared.item.SexpError.{SexpError};
ghost use Rattle.cpt_sexp.specs.Bytes.{plain};
ghost use Rattle.cpt_sexp.specs.Faults.{IsFault, IsFirstFault};
ghost use Rattle.cpt_sexp.specs.Grammar.{SpellsText};
ghost use Rattle.cpt_sexp.specs.Printing.{Nest, IsPrintable, nest_of, printed};
ghost use Rattle.cpt_sexp.specs.Trees.{Trees};

/// Two readings of one text are one.
pub fn one_reading()
    ensures { (text : List ℕ) (trees others : Trees) → SpellsText text trees → SpellsText text others → trees ≡ others }
{}

/// No fault stands in a text that spells trees.
pub fn no_fault()
    ensures { (text : List ℕ) (trees : Trees) (fault : SexpError) → SpellsText text trees → IsFault (plain text) fault → ⊥ }
{}

/// A text has one first fault at most.
pub fn one_first_fault()
    ensures { (text : List ℕ) (fault other : SexpError) → IsFirstFault text fault → IsFirstFault text other → fault ≡ other }
{}

/// Words and groups that are written down with a space after each are read again.
pub fn printed_is_read()
    ensures { (nest : Nest) → IsPrintable 0 nest → (trees : Trees) × SpellsText (printed nest) trees × (nest_of (printed nest) trees ≡ nest) }
{}
