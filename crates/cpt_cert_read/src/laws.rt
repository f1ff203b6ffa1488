//! Laws of lines: their contracts are what they say, and their bodies are empty.

ghost use Rattle.std.specs.Prelude.{◌≡◌, ◌↔◌, ℕ, List, [], ◌++◌};
ghost use Rattle.cpt_cert_form.specs.declared.forms.CertLine.{CertLine};
ghost use Rattle.cpt_cert_form.specs.Forms.{IsReadAs};
ghost use Rattle.cpt_cert_read.specs.Lines.{kept};
ghost use Rattle.cpt_cert_read.specs.Texts.{EachHasLines};

/// The bytes of a line are read in one way.
pub fn one_reading()
    ensures { (bytes : List ℕ) (a b : CertLine) → IsReadAs bytes a → IsReadAs bytes b → a ≡ b }
{}

/// What is kept of a line is enough: it is read as the whole line is, more bytes come behind it as behind the
/// whole line, and nothing is kept only of nothing.
pub fn enough_is_kept()
    ensures reading { (bytes : List ℕ) (line : CertLine) → IsReadAs (kept bytes) line ↔ IsReadAs bytes line }
    ensures more { (bytes more : List ℕ) → kept (kept bytes ++ more) ≡ kept (bytes ++ more) }
    ensures nothing { (bytes : List ℕ) → (kept bytes ≡ []) ↔ (bytes ≡ []) }
{}

/// Each text has lines, and they are read in one way.
pub fn each_has_lines()
    ensures { EachHasLines }
{}
