//! The laws: their contracts are what they say, and their bodies are empty.

ghost use Rattle.cpt_decidable.specs.Laws.{EachDistTableIsRuled, EachFlawStandsOrNot, EachPairTableIsRuled, EachPlanHasAVerdict, EachPlanIsValidOrNot, EachSheetIsDeadOrLive, EachStepIsLegalOrNot};

/// Each plan is valid or not.
pub fn each_plan_is_valid_or_not()
    ensures { EachPlanIsValidOrNot }
{}

/// Each plan of a task has a verdict: it is valid, or there is a first cause against it.
pub fn each_plan_has_a_verdict()
    ensures { EachPlanHasAVerdict }
{}

/// Each pair table is admissible, or it has a least fault.
pub fn each_pair_table_is_ruled()
    ensures { EachPairTableIsRuled }
{}

/// Each distance table is admissible, or it has a least fault.
pub fn each_dist_table_is_ruled()
    ensures { EachDistTableIsRuled }
{}

/// Each step is legal at a sheet or not.
pub fn each_step_is_legal_or_not()
    ensures { EachStepIsLegalOrNot }
{}

/// Each sheet is dead or live.
pub fn each_sheet_is_dead_or_live()
    ensures { EachSheetIsDeadOrLive }
{}

/// Each flaw stands in a sheet or not.
pub fn each_flaw_stands_or_not()
    ensures { EachFlawStandsOrNot }
{}
