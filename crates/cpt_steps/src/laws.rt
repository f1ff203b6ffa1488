//! Laws of legal steps: their contracts are what they say, and their bodies are empty.

ghost use Rattle.cpt_steps.specs.Landing.{ClosedWhereAll, LandsThere, ListedHavePlaces, MovesAbove, NeedsHavePlaces, SameChange, StepsCanBeMade};
ghost use Rattle.cpt_steps.specs.Room.{ChangesLessen, StepsLessen};
ghost use Rattle.cpt_steps.specs.Tight.{GapsAreSmall, LiveArrivalsFit, OneTightValue, RunsAppend, TightRunsAppend, TightRunsGrow, TightRunsLead, TightValues};

/// A finite gap is below 10^15 + 100001.
pub fn gaps_are_small()
    ensures { GapsAreSmall }
{}

/// In a live formed sheet each arrival keeps the limits of moments.
pub fn arrivals_fit()
    ensures { LiveArrivalsFit }
{}

/// Where a step with some value is legal, so is the step with the very value that its row gives.
pub fn tight_values()
    ensures { TightValues }
{}

/// A row gives one value.
pub fn one_tight_value()
    ensures { OneTightValue }
{}

/// Steps that have the very values of their rows are legal steps.
pub fn tight_runs_lead()
    ensures { TightRunsLead }
{}

/// Legal steps that lead on from where others end are legal steps from where those begin.
pub fn runs_append()
    ensures { RunsAppend }
{}

/// The same of steps that have the very values of their rows.
pub fn tight_runs_append()
    ensures { TightRunsAppend }
{}

/// A run of such steps has one more at its end.
pub fn tight_runs_grow()
    ensures { TightRunsGrow }
{}

/// Each legal step of a formed sheet lands at a token or an outside action that is there.
pub fn lands_there()
    ensures { LandsThere }
{}

/// Where no token and no outside action of a formed sheet has a legal step the sheet is closed.
pub fn closed_where_all()
    ensures { ClosedWhereAll }
{}

/// What the change of a legal step of a formed sheet is of is there: the interval, the listed candidate, or the pair of
/// tokens, whose order does not stand yet.
pub fn steps_can_be_made()
    ensures { StepsCanBeMade }
{}

/// An atom that a token needs has its place among the preconditions, with the list of its candidates.
pub fn needs_have_places()
    ensures { NeedsHavePlaces }
{}

/// So has an atom for which a candidate is listed.
pub fn listed_have_places()
    ensures { ListedHavePlaces }
{}

/// The change of a step is the same read before and after it.
pub fn same_change()
    ensures { SameChange }
{}

/// What narrows a sheet narrows each sheet above it.
pub fn moves_above()
    ensures { MovesAbove }
{}

/// Each change that narrows something of a formed sheet leaves less room.
pub fn changes_lessen()
    ensures { ChangesLessen }
{}

/// Each legal step of a formed sheet leaves less room.
pub fn steps_lessen()
    ensures { StepsLessen }
{}
