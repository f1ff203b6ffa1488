//! The laws.

ghost use Rattle.cpt_domain_spelling.specs.Laws.{ActionsReadBack, ConditionsReadBack, DomainsReadBack, DurationsReadBack, EffectsReadBack, FunctionsReadBack, PlainActionsReadBack, PredicatesReadBack, ReadActionsAreTyped, ReadDomainsAreSpellable, ReadDomainsAreWellFormed, ReadTypesAreArranged, TermsReadBack, TypedListsReadBack, TypesReadBack};
ghost use Rattle.cpt_domain_spelling.specs.Sample.{LampsAreSpelled};
ghost use Rattle.cpt_domain_spelling.specs.Siblings.{LesserParentsStand};
ghost use Rattle.cpt_domain_spelling.specs.Texts.{TextsReadBack};

/// A typed list that says different names with their types is read as these names and types.
pub fn typed_lists_read_back()
    ensures { TypedListsReadBack }
{}

/// Types that are said with their parents are read as they are, with the same numbers.
pub fn types_read_back()
    ensures { TypesReadBack }
{}

/// Predicates that are said with their variables are read as they are.
pub fn predicates_read_back()
    ensures { PredicatesReadBack }
{}

/// Functions that are said with their variables are read as they are.
pub fn functions_read_back()
    ensures { FunctionsReadBack }
{}

/// A predicate or function with its terms is read as it is, where each term is of the type that is wanted there or
/// of a type below it.
pub fn terms_read_back()
    ensures { TermsReadBack }
{}

/// The conditions of a sound action are read as they are: the atoms that are to be there, those that are to be absent,
/// and the tests.
pub fn conditions_read_back()
    ensures { ConditionsReadBack }
{}

/// The effects at the end of a sound action are read as the atoms that they add and those that they delete.
pub fn effects_read_back()
    ensures { EffectsReadBack }
{}

/// A duration is read as it is: a number, or a function with its terms.
pub fn durations_read_back()
    ensures { DurationsReadBack }
{}

/// A sound action is read as it is, where its name is new.
pub fn actions_read_back()
    ensures { ActionsReadBack }
{}

/// A sound action that takes one unit of time is read as it is where it is spelled without a duration.
pub fn plain_actions_read_back()
    ensures { PlainActionsReadBack }
{}

/// A parsed text that says the spelling of a domain is read as this domain, wherever its words and groups stand.
pub fn domains_read_back()
    ensures { DomainsReadBack }
{}

/// Whatever parsing returns of the text that a domain's spelling is printed as, it is read as this domain, unless
/// memory ran out.
pub fn texts_read_back()
    ensures { TextsReadBack }
{}

/// Where each type but `object` has a lesser one for its parent, the types of a spelling can stand one by one.
pub fn lesser_parents_stand()
    ensures { LesserParentsStand }
{}

/// Each action that is read, durative or not, has terms of the types that are wanted, and names of atoms that can stand
/// where they stand.
pub fn read_actions_are_typed()
    ensures { ReadActionsAreTyped }
{}

/// Each domain that is read is well formed: its names begin with letters, and those of its predicates are no reserved
/// words; `object` is its first type; and its actions are typed.
pub fn read_domains_are_well_formed()
    ensures { ReadDomainsAreWellFormed }
{}

/// The types that are read stand in some groups of siblings, and are numbered by their first places.
pub fn read_types_are_arranged()
    ensures { ReadTypesAreArranged }
{}

/// Each sound domain that is read has a spelling: so the domains with a spelling are those that are read of some text.
pub fn read_domains_are_spellable()
    ensures { ReadDomainsAreSpellable }
{}

/// A domain of lamps is spelled as its text says.
pub fn lamps_are_spelled()
    ensures { LampsAreSpelled }
{}
