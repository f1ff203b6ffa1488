//! Laws of faults: their contracts are what they say, and their bodies are empty.

ghost use Rattle.std.specs.Prelude.{◌≡◌, ◌↔◌, ℕ, List, Err};
ghost use Rattle.cpt_task.specs.declared.memory.Limit.{Limit};
ghost use Rattle.cpt_task_text.specs.declared.error.TaskTextError.TheVariants as errors;
ghost use Rattle.cpt_task_text.specs.Faults.{IsAtLimit, IsFirstFaulty};
ghost use Rattle.cpt_task_text.specs.Reading.{task_of};

/// A fault is the line with which the text is no longer the beginning of a plain task's spelling, and a
/// limit is answered where that line is well formed and passes it.
pub fn first_faulty_line()
    ensures line { (text : List ℕ) (n : ℕ) → task_of text ≡ Err (errors.Line n) ↔ IsFirstFaulty text n }
    ensures limit { (text : List ℕ) (which : Limit) → task_of text ≡ Err (errors.Limit which) ↔ ((n : ℕ) × IsAtLimit text which n) }
    ensures memory { (text : List ℕ) → task_of text ≡ Err errors.Memory → ⊥ }
{}
