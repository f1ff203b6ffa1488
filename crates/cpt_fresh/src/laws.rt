//! Laws of fresh sheets and of what lasts: their contracts are what they say, and their bodies are empty.

ghost use Rattle.cpt_fresh.specs.Extending.{BroughtIsNew, CarriedOn, DecisionsAreCarried, DecisionsBringOne, DecisionsExtend, ExtendsItself, ExtendsOn, FreshCarries, FreshExtends, LiveExtends, TokensByDecisions};
ghost use Rattle.cpt_fresh.specs.Flawless.{ChoiceIsOrder, ChoiceIsTotal, ClosedForAll, DecidedIsFlawless, EachStepInUse, FlawlessIsDecided, NoFlawNoFirst, OneFirstFlaw};
ghost use Rattle.cpt_fresh.specs.Fresh.{BeginningClosesFresh, FreshAfter, FreshAtRoot, OneBeginning, OneFresh, ReachesFresh};

/// A list of decisions has one fresh sheet, or none.
pub fn one_fresh()
    ensures { OneFresh }
{}

/// The fresh sheet of no decision is the closure of the root.
pub fn fresh_at_root()
    ensures { FreshAtRoot }
{}

/// A further decision fits the fresh sheet of the earlier ones, and the closure of that decision applied to it is the
/// next fresh sheet.
pub fn fresh_after()
    ensures { FreshAfter }
{}

/// The steps of a list of decisions begin at one sheet.
pub fn one_beginning()
    ensures { OneBeginning }
{}

/// What the sheet where they begin closes to is the fresh sheet.
pub fn beginning_closes_fresh()
    ensures { BeginningClosesFresh }
{}

/// Whoever reaches a closed or a dead sheet by legal steps from there has the fresh one.
pub fn reaches_fresh()
    ensures { ReachesFresh }
{}

/// Of two flaws one is chosen before the other, or they are one.
pub fn choice_is_total()
    ensures { ChoiceIsTotal }
{}

/// The order of choice is a strict order.
pub fn choice_is_order()
    ensures { ChoiceIsOrder }
{}

/// A sheet has one first flaw.
pub fn one_first_flaw()
    ensures { OneFirstFlaw }
{}

/// A sheet without a flaw has no first one.
pub fn no_flaw_no_first()
    ensures { NoFlawNoFirst }
{}

/// In a live sheet without a flaw each list is one token, each threat comes before the supplier or after the consumer,
/// and tokens that interfere are in order.
pub fn flawless_is_decided()
    ensures { FlawlessIsDecided }
{}

/// A sheet of which this is so has no flaw.
pub fn decided_is_flawless()
    ensures { DecidedIsFlawless }
{}

/// Each step is of one of the rules in use.
pub fn each_step_in_use()
    ensures { EachStepInUse }
{}

/// A sheet that is closed for the rules in use has no legal step.
pub fn closed_for_all()
    ensures { ClosedForAll }
{}

/// A sheet extends itself.
pub fn extends_itself()
    ensures { ExtendsItself }
{}

/// Extending is transitive.
pub fn extends_on()
    ensures { ExtendsOn }
{}

/// A live sheet extends each sheet above it.
pub fn live_extends()
    ensures { LiveExtends }
{}

/// The sheet after a decision that fits extends the sheet before it.
pub fn decisions_extend()
    ensures { DecisionsExtend }
{}

/// After a decision that fits the named list is the one token, or the order stands.
pub fn decisions_are_carried()
    ensures { DecisionsAreCarried }
{}

/// After a `Bring` the named list is the new token.
pub fn brought_is_new()
    ensures { BroughtIsNew }
{}

/// What a sheet carries each sheet that extends it carries.
pub fn carried_on()
    ensures { CarriedOn }
{}

/// A decision brings at most one token.
pub fn decisions_bring_one()
    ensures { DecisionsBringOne }
{}

/// A fresh sheet extends the fresh sheet of each front of its decisions.
pub fn fresh_extends()
    ensures { FreshExtends }
{}

/// A fresh sheet carries each of its decisions.
pub fn fresh_carries()
    ensures { FreshCarries }
{}

/// A fresh sheet has at most one token for each decision beside the start and the end.
pub fn tokens_by_decisions()
    ensures { TokensByDecisions }
{}
