//! The sections of a problem.

ghost use Rattle.std.specs.Prelude.{◌≡◌, MatchOption, None, Some};
ghost use Rattle.cpt_pddl.specs.Faults.{Gives};
ghost use Rattle.cpt_pddl.specs.Items.{left};
ghost use Rattle.cpt_problem.specs.Sections.{after_keyword, after_objects, after_requirements, is_alone, is_end, is_metric, is_total_time, is_untaken, metric_end, misplaced, name_in, no_section, optional, other_section, same_domain, same_name, section};

use cpt_declared::{Declared, words_only};
use cpt_pddl::{
    Cursor, Fault, Feature, Next, Sort, after_word, group_at, is_word, name_at, nothing, typed_list,
};

fn is_untaken(bytes: &[u8]) -> bool
    ensures { result ≡ is_untaken bytes.now }
{
    is_word(bytes, ":derived")
        || is_word(bytes, ":constraints")
        || is_word(bytes, ":process")
        || is_word(bytes, ":event")
        || is_word(bytes, ":functions")
}

fn misplaced(at: u32, keyword: u32, bytes: &[u8]) -> Fault
    ensures { result ≡ misplaced at keyword bytes.now }
{
    if is_untaken(bytes) {
        Fault::Feature(Feature::Section, at)
    } else {
        Fault::Shape(keyword)
    }
}

fn after_keyword<'a>(wanted: &str, at: u32, inside: Cursor<'a>) -> Result<Cursor<'a>, Fault>
    ensures { Gives left result (after_keyword wanted.now at (left inside.entry)) }
{
    match inside.next() {
        Next::End(close) => Err(Fault::Shape(close)),
        Next::Word(keyword, bytes, rest) => {
            if is_word(bytes, wanted) {
                Ok(rest)
            } else {
                Err(misplaced(at, keyword, bytes))
            }
        }
        Next::Group(a, _, _) => Err(Fault::Shape(a)),
    }
}

/// A section of this kind has to stand here: what follows its keyword, and what follows it.
#[tactic(auto, unfolding(crate::specs::Sections::section))]
pub fn section<'a>(wanted: &str, place: Cursor<'a>) -> Result<(Cursor<'a>, Cursor<'a>), Fault>
    ensures { Gives (λ x. (left x.0, left x.1)) result (section wanted.now (left place.entry)) }
{
    let (at, inside, rest) = group_at(place)?;
    let inside = after_keyword(wanted, at, inside)?;
    Ok((inside, rest))
}

/// A section of this kind may stand here: its byte, what follows its keyword, and what follows it.
fn optional<'a>(wanted: &str, place: Cursor<'a>) -> Option<(u32, Cursor<'a>, Cursor<'a>)>
    ensures { MatchOption result (optional wanted.now (left place.entry) ≡ None) (λ x. optional wanted.now (left place.entry) ≡ Some (x.0, left x.1, left x.2)) }
{
    match place.next() {
        Next::End(_) => None,
        Next::Word(_, _, _) => None,
        Next::Group(at, inside, rest) => match inside.next() {
            Next::End(_) => None,
            Next::Word(_, bytes, within) => {
                if is_word(bytes, wanted) {
                    Some((at, within, rest))
                } else {
                    None
                }
            }
            Next::Group(_, _, _) => None,
        },
    }
}

/// The name of a problem, in its group.
#[tactic(auto, unfolding(crate::specs::Sections::name_in))]
pub fn name_in(place: Cursor<'_>) -> Result<(), Fault>
    ensures { Gives (λ _. tt) result (name_in (left place.entry)) }
{
    let rest = after_word("problem", place)?;
    let (_, _, rest) = name_at(rest)?;
    nothing(rest)
}

fn same_name(name: &[u8], at: u32, bytes: &[u8]) -> Result<(), Fault>
    ensures { Gives (λ _. tt) result (same_name name.now at bytes.now) }
{
    if bytes == name {
        Ok(())
    } else {
        Err(Fault::OtherDomain(at))
    }
}

/// This name of a domain has to stand here, and nothing more.
#[tactic(auto, unfolding(crate::specs::Sections::same_domain))]
pub fn same_domain(name: &[u8], place: Cursor<'_>) -> Result<(), Fault>
    ensures { Gives (λ _. tt) result (same_domain name.now (left place.entry)) }
{
    let (at, found, rest) = name_at(place)?;
    same_name(name, at, found)?;
    nothing(rest)
}

/// What follows the requirements, if they stand here.
#[tactic(auto, unfolding(crate::specs::Sections::after_requirements))]
pub fn after_requirements<'a>(place: Cursor<'a>) -> Result<Cursor<'a>, Fault>
    ensures { Gives left result (after_requirements (left place.entry)) }
{
    let Some((_, inside, rest)) = optional(":requirements", place) else {
        return Ok(place);
    };
    words_only(inside)?;
    Ok(rest)
}

/// What is declared with the objects of a problem after the constants, and what follows them, if they stand here.
#[tactic(auto, unfolding(crate::specs::Sections::after_objects))]
pub fn after_objects<'a>(
    declared: Declared,
    place: Cursor<'a>,
) -> Result<(Declared, Cursor<'a>), Fault>
    ensures { Gives (λ x. (x.0, left x.1)) result (after_objects declared (left place.entry)) }
{
    let Some((_, inside, rest)) = optional(":objects", place) else {
        return Ok((declared, place));
    };
    let Declared {
        types,
        constants,
        predicates,
        functions,
    } = declared;
    let constants = typed_list(Sort::Objects, &types.names, constants, inside)?;
    Ok((
        Declared {
            types,
            constants,
            predicates,
            functions,
        },
        rest,
    ))
}

fn is_end(place: Cursor<'_>) -> bool
    ensures { result ≡ is_end (left place.entry) }
{
    match place.next() {
        Next::End(_) => true,
        Next::Word(_, _, _) => false,
        Next::Group(_, _, _) => false,
    }
}

fn is_alone(wanted: &str, place: Cursor<'_>) -> bool
    ensures { result ≡ is_alone wanted.now (left place.entry) }
{
    match place.next() {
        Next::End(_) => false,
        Next::Word(_, bytes, rest) => is_word(bytes, wanted) && is_end(rest),
        Next::Group(_, _, _) => false,
    }
}

fn is_total_time(place: Cursor<'_>) -> bool
    ensures { result ≡ is_total_time (left place.entry) }
{
    match place.next() {
        Next::End(_) => false,
        Next::Word(_, _, _) => is_alone("total-time", place),
        Next::Group(_, inside, rest) => is_alone("total-time", inside) && is_end(rest),
    }
}

fn is_metric(place: Cursor<'_>) -> bool
    ensures { result ≡ is_metric (left place.entry) }
{
    match place.next() {
        Next::End(_) => false,
        Next::Word(_, bytes, rest) => is_word(bytes, "minimize") && is_total_time(rest),
        Next::Group(_, _, _) => false,
    }
}

fn other_section(at: u32, inside: Cursor<'_>) -> Fault
    ensures { result ≡ other_section at (left inside.entry) }
{
    match inside.next() {
        Next::End(close) => Fault::Shape(close),
        Next::Word(keyword, bytes, _) => misplaced(at, keyword, bytes),
        Next::Group(a, _, _) => Fault::Shape(a),
    }
}

fn no_section(place: Cursor<'_>) -> Result<(), Fault>
    ensures { Gives (λ _. tt) result (no_section (left place.entry)) }
{
    match place.next() {
        Next::End(_) => Ok(()),
        Next::Word(at, _, _) => Err(Fault::Shape(at)),
        Next::Group(at, inside, _) => Err(other_section(at, inside)),
    }
}

/// The metric may stand here, and then nothing more.
#[tactic(auto, unfolding(crate::specs::Sections::metric_end))]
pub fn metric_end(place: Cursor<'_>) -> Result<(), Fault>
    ensures { Gives (λ _. tt) result (metric_end (left place.entry)) }
{
    let Some((at, inside, rest)) = optional(":metric", place) else {
        return no_section(place);
    };
    if is_metric(inside) {
        nothing(rest)
    } else {
        Err(Fault::Feature(Feature::Metric, at))
    }
}
