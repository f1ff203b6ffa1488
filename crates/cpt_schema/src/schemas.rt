//! The actions of a domain, with their parameters.

ghost use Rattle.std.specs.Prelude.{◌≡◌, Ok, IfOk, map};
ghost use Rattle.std.specs.Option.{option_map};
ghost use Rattle.cpt_pddl.specs.Faults.{Gives};
ghost use Rattle.cpt_pddl.specs.Items.{left};
ghost use Rattle.cpt_schema.specs.Schemas.{assembled, body, condition_part, condition_word, effect_part, lasting_next, lits_of, parameters, parameters_by, part, schema_after, schema_in};
ghost use Rattle.cpt_schema.specs.Shapes.{conds_of, effs_of, found_of};

use crate::conditions::{Conditions, Test};
use crate::durations::{Lasting, duration_next};
use crate::effects::{Effect, Effects, Tag};
use crate::terms::Lit;
use cpt_declared::Declared;
use cpt_pddl::{
    Cursor, Fault, Names, Next, Sort, Typed, after_word, group_at, is_word, name_at, nothing,
    typed_list,
};
use cpt_task::{List, Name};
use std::alloc::Global;

/// An action with parameters: its name, the types of its parameters, how long it lasts, the atoms that are to be
/// there and those that are to be absent, the tests, and the atoms that it adds and deletes. Atoms and tests stand in
/// the order of the text.
#[derive(Debug, Drop)]
pub struct Schema {
    pub name: Name,
    pub kinds: List<u32>,
    pub dur: Lasting,
    pub pre: List<Lit>,
    pub add: List<Lit>,
    pub dele: List<Lit>,
    pub tests: List<Test>,
    pub absent: List<Lit>,
}

/// The byte and the inside of a group, where it stands.
type Found<'a> = Option<(u32, Cursor<'a>)>;

fn part<'a>(wanted: &str, place: Cursor<'a>) -> Result<(Found<'a>, Cursor<'a>), Fault>
    ensures { Gives (λ x. (found_of x.0, left x.1)) result (part wanted.now (left place.entry)) }
{
    match place.next() {
        Next::End(_) => Ok((None, place)),
        Next::Word(_, bytes, rest) => {
            if is_word(bytes, wanted) {
                let (at, inside, rest) = group_at(rest)?;
                Ok((Some((at, inside)), rest))
            } else {
                Ok((None, place))
            }
        }
        Next::Group(_, _, _) => Ok((None, place)),
    }
}

fn parameters_by(alloc: Global, declared: &Declared, found: Found<'_>) -> Result<Typed, Fault>
    ensures { Gives (λ params. params) result (parameters_by declared.now (found_of found.entry)) }
{
    match found {
        None => Ok(Typed::new(alloc)),
        Some((_, inside)) => typed_list(
            Sort::Variables,
            &declared.types.names,
            Typed::new(alloc),
            inside,
        ),
    }
}

#[tactic(auto, unfolding(crate::specs::Schemas::parameters))]
fn parameters<'a>(
    alloc: Global,
    declared: &Declared,
    place: Cursor<'a>,
) -> Result<(Typed, Cursor<'a>), Fault>
    ensures { Gives (λ x. (x.0, left x.1)) result (parameters declared.now (left place.entry)) }
{
    let (found, rest) = part(":parameters", place)?;
    let params = parameters_by(alloc, declared, found)?;
    Ok((params, rest))
}

fn condition_part(
    alloc: Global,
    tagged: bool,
    declared: &Declared,
    params: &Typed,
    found: Found<'_>,
) -> Result<Conditions, Fault>
    ensures { Gives conds_of result (condition_part tagged declared.now params.now (found_of found.entry)) }
{
    let mut conditions = Conditions::new(alloc);
    if let Some((at, inside)) = found {
        if tagged {
            conditions.read_timed(alloc, declared, params, at, inside)?;
        } else {
            conditions.read(alloc, declared, params, at, inside)?;
        }
    }
    Ok(conditions)
}

fn effect_part(
    alloc: Global,
    tagged: bool,
    declared: &Declared,
    params: &Typed,
    found: Found<'_>,
) -> Result<Effects, Fault>
    ensures { Gives effs_of result (effect_part tagged declared.now params.now (found_of found.entry)) }
{
    let mut effects = Effects::new(alloc);
    if let Some((at, inside)) = found {
        if tagged {
            effects.read_timed(alloc, declared, params, at, inside)?;
        } else {
            effects.read(alloc, declared, params, Tag::Plain, at, inside)?;
        }
    }
    Ok(effects)
}

fn condition_word(tagged: bool) -> &'static str
    ensures { result.now ≡ condition_word tagged }
{
    if tagged {
        ":condition"
    } else {
        ":precondition"
    }
}

#[tactic(auto, unfolding(crate::specs::Schemas::body))]
fn body(
    alloc: Global,
    tagged: bool,
    declared: &Declared,
    params: &Typed,
    place: Cursor<'_>,
) -> Result<(Conditions, Effects), Fault>
    ensures { Gives (λ x. (conds_of x.0, effs_of x.1)) result (body tagged declared.now params.now (left place.entry)) }
{
    let (condition, rest) = part(condition_word(tagged), place)?;
    let conditions = condition_part(alloc, tagged, declared, params, condition)?;
    let (effect, rest) = part(":effect", rest)?;
    let effects = effect_part(alloc, tagged, declared, params, effect)?;
    nothing(rest)?;
    Ok((conditions, effects))
}

fn lasting_next<'a>(
    alloc: Global,
    durative: bool,
    declared: &Declared,
    params: &Typed,
    place: Cursor<'a>,
) -> Result<(Lasting, Cursor<'a>), Fault>
    ensures { Gives (λ x. (x.0, left x.1)) result (lasting_next durative declared.now params.now (left place.entry)) }
{
    if durative {
        let rest = after_word(":duration", place)?;
        duration_next(alloc, declared, params, rest)
    } else {
        Ok((Lasting::Fixed(1), place))
    }
}

fn lits_of(alloc: Global, effects: Vec<Effect>) -> Result<List<Lit>, Fault>
    ensures { Gives (λ lits. lits) result (Ok (lits_of effects.items)) }
{
    let mut effects = effects;
    let mut lits = Vec::new(alloc);
    while !effects.is_empty() {
        let Effect { lit, .. } = effects.remove(0);
        lits.push(lit)?;
    }
    Ok(List::from_vec(lits))
}

fn name_of(alloc: Global, bytes: &[u8]) -> Result<Name, Fault>
    ensures { Gives (λ name. name) result (Ok bytes.now) }
{
    let mut name = Vec::new(alloc);
    name.extend_from_slice(bytes)?;
    Ok(List::from_vec(name))
}

#[tactic(auto, unfolding(crate::specs::Schemas::schema_after))]
fn schema_after(
    alloc: Global,
    durative: bool,
    declared: &Declared,
    name: &[u8],
    place: Cursor<'_>,
) -> Result<Schema, Fault>
    ensures { Gives (λ schema. schema) result (schema_after durative declared.now name.now (left place.entry)) }
{
    let (params, rest) = parameters(alloc, declared, place)?;
    let (dur, rest) = lasting_next(alloc, durative, declared, &params, rest)?;
    let (conditions, effects) = body(alloc, durative, declared, &params, rest)?;
    assembled(alloc, name, params, dur, conditions, effects)
}

fn assembled(
    alloc: Global,
    name: &[u8],
    params: Typed,
    dur: Lasting,
    conditions: Conditions,
    effects: Effects,
) -> Result<Schema, Fault>
    ensures { Gives (λ schema. schema) result (Ok (assembled name.now params dur (conds_of conditions) (effs_of effects))) }
{
    let Typed { kinds, .. } = params;
    let Conditions { pre, absent, tests } = conditions;
    let Effects { adds, dels } = effects;
    let name = name_of(alloc, name)?;
    let add = lits_of(alloc, adds)?;
    let dele = lits_of(alloc, dels)?;
    Ok(Schema {
        name,
        kinds,
        dur,
        pre: List::from_vec(pre),
        add,
        dele,
        tests: List::from_vec(tests),
        absent: List::from_vec(absent),
    })
}

/// What follows the keyword of an action, durative or not, whose name is to be none of those that are known.
#[tactic(auto, unfolding(crate::specs::Schemas::schema_in))]
pub fn schema_in(
    alloc: Global,
    durative: bool,
    declared: &Declared,
    known: &Names,
    place: Cursor<'_>,
) -> Result<Schema, Fault>
    ensures { Gives (λ schema. schema) result (schema_in durative declared.now known.now (left place.entry)) }
{
    let (at, name, rest) = name_at(place)?;
    if known.find(name).is_some() {
        return Err(Fault::Twice(at));
    }
    schema_after(alloc, durative, declared, name, rest)
}
