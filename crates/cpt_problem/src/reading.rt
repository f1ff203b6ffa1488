//! Reads a problem.

ghost use Rattle.std.specs.Prelude.{◌≡◌, length, Ok, IfOk};
ghost use Rattle.cpt_sexp.specs.Grammar.{IsForest};
ghost use Rattle.cpt_facts.specs.Fitting.{Fits};
ghost use Rattle.cpt_domain.specs.Sound.{IsSound};
ghost use Rattle.cpt_pddl.specs.Faults.{Gives};
ghost use Rattle.cpt_pddl.specs.Items.{left, said_by};
ghost use Rattle.cpt_problem.specs.Errors.{Answers, of_problem, problem_error};
ghost use Rattle.cpt_problem.specs.Reading.{assembled, definition, problem_in, problem_of, sections_in, state_in};
ghost use Rattle.cpt_problem.specs.Shapes.{aims_of, begun_of};
ghost use Rattle.cpt_problem.specs.Tables.{declared_of};

use crate::error::ProblemError;
use crate::goals::{Goals, goal_part};
use crate::inits::{Inits, inits_in};
use crate::sections::{
    after_objects, after_requirements, metric_end, name_in, same_domain, section,
};
use crate::tables::{declared_of, objects_after};
use cpt_declared::Declared;
use cpt_domain::Domain;
use cpt_facts::Problem;
use cpt_pddl::{Cursor, Fault, after_word, group_at, nothing};
use cpt_sexp::Forest;
use cpt_task::List;
use std::alloc::Global;

fn assembled(
    alloc: Global,
    domain: &Domain,
    declared: Declared,
    inits: Inits,
    goals: Goals,
) -> Result<Problem, Fault>
    ensures { Gives (λ problem. problem) result (Ok (assembled domain.now declared (begun_of inits) (aims_of goals))) }
{
    let Declared { constants, .. } = declared;
    let objects = objects_after(alloc, domain.constants.as_slice().len(), constants)?;
    let Inits { facts, values } = inits;
    let Goals { present, absent } = goals;
    Ok(Problem {
        objects,
        init: List::from_vec(facts),
        goal: List::from_vec(present),
        values: List::from_vec(values.into_vec()),
        absent: List::from_vec(absent),
    })
}

#[tactic(auto, unfolding(crate::specs::Reading::state_in))]
fn state_in(
    alloc: Global,
    domain: &Domain,
    declared: Declared,
    place: Cursor<'_>,
) -> Result<Problem, Fault>
    ensures { Gives (λ problem. problem) result (state_in domain.now declared (left place.entry)) }
{
    let (start, rest) = section(":init", place)?;
    let inits = inits_in(alloc, domain.schemas.as_slice(), &declared, start)?;
    let (aim, rest) = section(":goal", rest)?;
    let goals = goal_part(alloc, &declared, aim)?;
    metric_end(rest)?;
    assembled(alloc, domain, declared, inits, goals)
}

#[tactic(auto, unfolding(crate::specs::Reading::sections_in))]
fn sections_in(alloc: Global, domain: &Domain, place: Cursor<'_>) -> Result<Problem, Fault>
    ensures { Gives (λ problem. problem) result (sections_in domain.now (left place.entry)) }
{
    let (named, rest) = section(":domain", place)?;
    same_domain(domain.name.as_slice(), named)?;
    let rest = after_requirements(rest)?;
    let declared = declared_of(alloc, domain)?;
    let (declared, rest) = after_objects(declared, rest)?;
    state_in(alloc, domain, declared, rest)
}

#[tactic(auto, unfolding(crate::specs::Reading::definition))]
fn definition(alloc: Global, domain: &Domain, place: Cursor<'_>) -> Result<Problem, Fault>
    ensures { Gives (λ problem. problem) result (definition domain.now (left place.entry)) }
{
    let rest = after_word("define", place)?;
    let (_, head, rest) = group_at(rest)?;
    name_in(head)?;
    sections_in(alloc, domain, rest)
}

#[tactic(auto, unfolding(crate::specs::Reading::problem_in))]
fn problem_in(alloc: Global, domain: &Domain, place: Cursor<'_>) -> Result<Problem, Fault>
    ensures { Gives (λ problem. problem) result (problem_in domain.now (left place.entry)) }
{
    let (_, inside, rest) = group_at(place)?;
    let problem = definition(alloc, domain, inside)?;
    nothing(rest)?;
    Ok(problem)
}

fn problem_error(fault: Fault) -> ProblemError
    ensures { result ≡ problem_error fault }
{
    match fault {
        Fault::Shape(at) => ProblemError::Shape(at),
        Fault::BadName(at) => ProblemError::BadName(at),
        Fault::Twice(at) => ProblemError::Twice(at),
        Fault::BadType(at) => ProblemError::BadType(at),
        Fault::Arity(at) => ProblemError::Arity(at),
        Fault::Feature(which, at) => ProblemError::Feature(which, at),
        // No problem text has an effect.
        Fault::Window(at) => ProblemError::Shape(at),
        Fault::Duration(at) => ProblemError::Duration(at),
        Fault::Limit(which, at) => ProblemError::Limit(which, at),
        Fault::OtherDomain(at) => ProblemError::OtherDomain(at),
        Fault::Memory => ProblemError::Memory,
    }
}

/// The place before everything that a text says.
fn start(forest: &Forest) -> Cursor<'_>
    ensures place { left result ≡ said_by forest.now }
    ensures forest { IsForest forest.now }
{
    let _text = forest.text();
    Cursor::new(forest)
}

#[tactic(auto, using(crate::proofs::ErrorLemmas::answers_of), unfolding(crate::specs::Reading::problem_of))]
fn read(alloc: Global, domain: &Domain, forest: &Forest) -> Result<Problem, ProblemError>
    ensures exact { Answers result (problem_of domain.now forest.now) }
    ensures forest { IsForest forest.now }
{
    match problem_in(alloc, domain, start(forest)) {
        Ok(problem) => Ok(problem),
        Err(fault) => Err(problem_error(fault)),
    }
}

/// The problem of the domain that the text is, or its first fault from left to right. It fits the domain.
#[tactic(auto, using(crate::proofs::FitLemmas::answer_fits))]
pub fn read_problem(
    alloc: Global,
    domain: &Domain,
    forest: &Forest,
) -> Result<Problem, ProblemError>
    requires sound { IsSound domain.now }
    // The text says so, or has this fault.
    ensures exact { Answers result (problem_of domain.now forest.now) }
    ensures fits { IfOk result (λ p. Fits domain.now p) }
{
    read(alloc, domain, forest)
}
