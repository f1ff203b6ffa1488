//! Laws on what tasks know and on plan texts.

ghost use Rattle.std.specs.Prelude.{◌≡◌, ◌↔◌, ◌≤◌, ℕ, All, List, None, Some, length, map};
ghost use Rattle.std.specs.List.Sorted.{IsPermutation};
ghost use Rattle.cpt_line.specs.Names.{AreNames};
ghost use Rattle.cpt_task.specs.declared.plan.Occ.{Occ};
ghost use Rattle.cpt_task.specs.Building.{IsFirst};
ghost use Rattle.cpt_task.specs.Shape.{InBounds, TaskShape};
ghost use Rattle.cpt_task.specs.Timeline.{IsPlan};
ghost use Rattle.cpt_plan_text.specs.declared.line.Entry.{Entry};
ghost use Rattle.cpt_plan_text.specs.declared.roster.Found.{Found};
ghost use Rattle.cpt_plan_text.specs.declared.roster.Found.TheVariants.{Known, Unreachable, Unknown};
ghost use Rattle.cpt_plan_text.specs.Entries.{IsSilent, SpellsEntry};
ghost use Rattle.cpt_plan_text.specs.Faults.{FaultlessIsRead, FaultsComeFirst, LateFaultsComeNext};
ghost use Rattle.cpt_plan_text.specs.Grammar.{line_in, lower};
ghost use Rattle.cpt_plan_text.specs.Knowing.{HasName, KnowsActions, task_finds};
ghost use Rattle.cpt_plan_text.specs.Meaning.{plan_of};
ghost use Rattle.cpt_plan_text.specs.Spelling.{IsInPrintOrder, IsTextOf, in_lines, plan_spelling};

/// A task knows its actions and no others.
pub fn tasks_know_actions()
    ensures { (t : TaskShape) → KnowsActions (task_finds t) (length t.actions) }
{}

/// A task knows a name by the least number of an action of that name, and otherwise it does not know it.
pub fn tasks_find_first()
    ensures known { (t : TaskShape) (name : List ℕ) (act : ℕ) → task_finds t name ≡ Known act ↔ IsFirst (HasName t.actions name) act }
    ensures unknown { (t : TaskShape) (name : List ℕ) → task_finds t name ≡ Unknown ↔ ((act : ℕ) → HasName t.actions name act → ⊥) }
{}

/// A plan has one text.
pub fn plans_have_one_text()
    ensures { (t : TaskShape) (plan : List Occ) (a b : List ℕ) → IsTextOf t plan a → IsTextOf t plan b → a ≡ b }
{}

/// The text of a plan whose occurrences start at 1,000,000,000 at the latest is read over the task itself as the
/// same occurrences in printed order, where the names of the task's actions are legal and distinct.
pub fn printed_plans_read_back()
    // Occurrences that are spelled in any order are read in that order.
    ensures spelled { (t : TaskShape) (plan : List Occ) → InBounds t → AreNames (map (λ a. a.name) t.actions) → IsPlan t plan → All (λ o. o.start ≤ 1000000000) plan
        → plan_of (task_finds t) t (plan_spelling t plan) ≡ Ok (in_lines plan) }
    ensures printed { (t : TaskShape) (plan : List Occ) (text : List ℕ) → InBounds t → AreNames (map (λ a. a.name) t.actions) → IsPlan t plan → All (λ o. o.start ≤ 1000000000) plan → IsTextOf t plan text
        → (sorted : List Occ) × IsPermutation plan sorted × IsInPrintOrder sorted × (plan_of (task_finds t) t text ≡ Ok (in_lines sorted)) }
{}

/// Which fault a plan text is refused by. First the least line counts that is not in the grammar, has an unknown
/// name or starts too late. Only where there is none, the least line with a wrong duration or an unreachable
/// action counts.
pub fn faults_come_in_order()
    ensures first { (finds : List ℕ → Found) (t : TaskShape) (text : List ℕ) → FaultsComeFirst finds t text }
    ensures second { (finds : List ℕ → Found) (t : TaskShape) (text : List ℕ) → LateFaultsComeNext finds t text }
    ensures none { (finds : List ℕ → Found) (t : TaskShape) (text : List ℕ) → FaultlessIsRead finds t text }
{}

/// Letter case is ignored: a text is read as the same text in lower case.
pub fn letter_case_is_ignored()
    ensures { (finds : List ℕ → Found) (t : TaskShape) (text : List ℕ) → plan_of finds t (map lower text) ≡ plan_of finds t text }
{}

/// What a line says is told by its parts: an entry exactly where the line is its parts, one behind the other, and
/// nothing exactly where it is blank or a comment. It is refused exactly where it is neither.
pub fn lines_by_parts()
    ensures entry { (line : List ℕ) (entry : Entry) → line_in line ≡ Some (Some entry) ↔ SpellsEntry line entry }
    ensures silent { (line : List ℕ) → line_in line ≡ Some None ↔ IsSilent line }
    ensures refused { (line : List ℕ) → line_in line ≡ None ↔ ((entry : Entry) → SpellsEntry line entry → ⊥) × (IsSilent line → ⊥) }
{}
