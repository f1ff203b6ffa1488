//! The conditions of an action.

ghost use Rattle.std.specs.Prelude.{◌≡◌, []};
ghost use Rattle.cpt_pddl.specs.Faults.{Gives};
ghost use Rattle.cpt_pddl.specs.Items.{left};
ghost use Rattle.cpt_pddl.specs.Words.{head_of};
ghost use Rattle.cpt_schema.specs.Conditions.{absent_atom, after_all, after_moment, at_moment, over_all, begins_compound, condition_by, condition_in, conditions_in, equation, has_group_side, is_compound, is_full, is_moment, negated, negated_by, negated_group, present, tagged, term_next, timed_by, timed_condition_in, timed_conditions_in, two_terms};
ghost use Rattle.cpt_schema.specs.Shapes.{conds_of};

use crate::terms::{Lit, Term, atom_in, term_at};
use cpt_declared::Declared;
use cpt_pddl::{
    Cursor, Fault, Feature, Head, Next, Typed, after_word, group_at, head_of, is_word, nothing,
};
use cpt_task::CONDITION_LIMIT;
use std::alloc::Global;

/// A test of two terms: they are to be equal, or to be different.
#[derive(Clone, Copy, Debug, PartialEq, Eq)]
pub struct Test {
    pub left: Term,
    pub right: Term,
    pub equal: bool,
}

/// The conditions of an action: atoms that are to be there, atoms that are to be absent, and tests.
#[derive(Drop)]
pub struct Conditions {
    pub pre: Vec<Lit>,
    pub absent: Vec<Lit>,
    pub tests: Vec<Test>,
}

fn term_next<'a>(
    declared: &Declared,
    params: &Typed,
    place: Cursor<'a>,
) -> Result<(Term, Cursor<'a>), Fault>
    ensures { Gives (λ found. (found.0, left found.1)) result (term_next declared.now params.now (left place.entry)) }
{
    match place.next() {
        Next::End(close) => Err(Fault::Shape(close)),
        Next::Word(at, bytes, rest) => {
            let (term, _) = term_at(declared, params, at, bytes)?;
            Ok((term, rest))
        }
        Next::Group(at, _, _) => Err(Fault::Shape(at)),
    }
}

fn has_group_side(place: Cursor<'_>) -> bool
    ensures { result ≡ has_group_side (left place.entry) }
{
    match place.next() {
        Next::End(_) => false,
        Next::Word(_, _, rest) => match rest.next() {
            Next::End(_) => false,
            Next::Word(_, _, _) => false,
            Next::Group(_, _, _) => true,
        },
        Next::Group(_, _, _) => true,
    }
}

fn is_compound(head: Head) -> bool
    ensures { result ≡ is_compound head }
{
    match head {
        Head::And => true,
        Head::Not => true,
        Head::Equal => false,
        Head::At => false,
        Head::Over => false,
        Head::Untaken(_) => true,
        Head::Numeric => false,
        Head::Other => false,
    }
}

fn begins_compound(place: Cursor<'_>) -> bool
    ensures { result ≡ begins_compound (left place.entry) }
{
    match place.next() {
        Next::End(_) => false,
        Next::Word(_, _, _) => false,
        Next::Group(_, inside, _) => match inside.next() {
            Next::End(_) => false,
            Next::Word(_, bytes, _) => is_compound(head_of(bytes)),
            Next::Group(_, _, _) => false,
        },
    }
}

fn is_moment(bytes: &[u8]) -> bool
    ensures { result ≡ is_moment bytes.now }
{
    is_word(bytes, "start") || is_word(bytes, "end")
}

fn after_moment<'a>(place: Cursor<'a>) -> Result<Cursor<'a>, Fault>
    ensures { Gives left result (after_moment (left place.entry)) }
{
    match place.next() {
        Next::End(close) => Err(Fault::Shape(close)),
        Next::Word(at, bytes, rest) => {
            if is_moment(bytes) {
                Ok(rest)
            } else {
                Err(Fault::Shape(at))
            }
        }
        Next::Group(at, _, _) => Err(Fault::Shape(at)),
    }
}

fn after_all<'a>(place: Cursor<'a>) -> Result<Cursor<'a>, Fault>
    ensures { Gives left result (after_all (left place.entry)) }
{
    after_word("all", place)
}

impl Conditions {
    /// No conditions.
    pub fn new(alloc: Global) -> Conditions
        ensures { conds_of result ≡ record { pre = []; absent = []; tests = [] } }
    {
        Conditions {
            pre: Vec::new(alloc),
            absent: Vec::new(alloc),
            tests: Vec::new(alloc),
        }
    }

    fn is_full(&self) -> bool
        ensures { result ≡ is_full (conds_of self.now) }
    {
        let pre = self.pre.len();
        pre >= CONDITION_LIMIT || self.absent.len() >= CONDITION_LIMIT - pre
    }

    #[tactic(auto, unfolding(crate::specs::Conditions::present))]
    fn read_present(
        &mut self,
        alloc: Global,
        declared: &Declared,
        params: &Typed,
        atom: u32,
        at: u32,
        bytes: &[u8],
        rest: Cursor<'_>,
    ) -> Result<(), Fault>
        ensures { Gives (λ _. conds_of self.new) result (present declared.now params.now (conds_of self.old) atom at bytes.now (left rest.entry)) }
    {
        let lit = atom_in(
            alloc,
            declared,
            params,
            self.is_full(),
            atom,
            at,
            bytes,
            rest,
        )?;
        self.pre.push(lit)?;
        Ok(())
    }

    #[tactic(auto, unfolding(crate::specs::Conditions::absent_atom))]
    fn read_absent(
        &mut self,
        alloc: Global,
        declared: &Declared,
        params: &Typed,
        atom: u32,
        at: u32,
        bytes: &[u8],
        rest: Cursor<'_>,
    ) -> Result<(), Fault>
        ensures { Gives (λ _. conds_of self.new) result (absent_atom declared.now params.now (conds_of self.old) atom at bytes.now (left rest.entry)) }
    {
        let lit = atom_in(
            alloc,
            declared,
            params,
            self.is_full(),
            atom,
            at,
            bytes,
            rest,
        )?;
        self.absent.push(lit)?;
        Ok(())
    }

    #[tactic(auto, unfolding(crate::specs::Conditions::two_terms))]
    fn read_two_terms(
        &mut self,
        declared: &Declared,
        params: &Typed,
        equal: bool,
        place: Cursor<'_>,
    ) -> Result<(), Fault>
        ensures { Gives (λ _. conds_of self.new) result (two_terms declared.now params.now (conds_of self.old) equal (left place.entry)) }
    {
        let (left, rest) = term_next(declared, params, place)?;
        let (right, rest) = term_next(declared, params, rest)?;
        nothing(rest)?;
        self.tests.push(Test { left, right, equal })?;
        Ok(())
    }

    #[tactic(auto, unfolding(crate::specs::Conditions::equation))]
    fn read_equation(
        &mut self,
        declared: &Declared,
        params: &Typed,
        at: u32,
        equal: bool,
        place: Cursor<'_>,
    ) -> Result<(), Fault>
        ensures { Gives (λ _. conds_of self.new) result (equation declared.now params.now (conds_of self.old) at equal (left place.entry)) }
    {
        if has_group_side(place) {
            return Err(Fault::Feature(Feature::Numeric, at));
        }
        self.read_two_terms(declared, params, equal, place)
    }

    fn read_negated_by(
        &mut self,
        alloc: Global,
        declared: &Declared,
        params: &Typed,
        not_at: u32,
        atom: u32,
        at: u32,
        bytes: &[u8],
        rest: Cursor<'_>,
    ) -> Result<(), Fault>
        ensures { Gives (λ _. conds_of self.new) result (negated_by declared.now params.now (conds_of self.old) not_at atom at bytes.now (left rest.entry) (head_of bytes.now)) }
    {
        match head_of(bytes) {
            Head::And => Err(Fault::Feature(Feature::Negative, not_at)),
            Head::Not => Err(Fault::Feature(Feature::Negative, not_at)),
            Head::Equal => self.read_equation(declared, params, atom, false, rest),
            Head::At => self.read_absent(alloc, declared, params, atom, at, bytes, rest),
            Head::Over => self.read_absent(alloc, declared, params, atom, at, bytes, rest),
            Head::Untaken(_) => Err(Fault::Feature(Feature::Negative, not_at)),
            Head::Numeric => self.read_absent(alloc, declared, params, atom, at, bytes, rest),
            Head::Other => self.read_absent(alloc, declared, params, atom, at, bytes, rest),
        }
    }

    fn read_negated_group(
        &mut self,
        alloc: Global,
        declared: &Declared,
        params: &Typed,
        not_at: u32,
        atom: u32,
        inside: Cursor<'_>,
    ) -> Result<(), Fault>
        ensures { Gives (λ _. conds_of self.new) result (negated_group declared.now params.now (conds_of self.old) not_at atom (left inside.entry)) }
    {
        match inside.next() {
            Next::End(close) => Err(Fault::Shape(close)),
            Next::Word(at, bytes, rest) => self.read_negated_by(
                alloc, declared, params, not_at, atom, at, bytes, rest,
            ),
            Next::Group(at, _, _) => Err(Fault::Shape(at)),
        }
    }

    #[tactic(auto, unfolding(crate::specs::Conditions::negated))]
    fn read_negated(
        &mut self,
        alloc: Global,
        declared: &Declared,
        params: &Typed,
        not_at: u32,
        place: Cursor<'_>,
    ) -> Result<(), Fault>
        ensures { Gives (λ _. conds_of self.new) result (negated declared.now params.now (conds_of self.old) not_at (left place.entry)) }
    {
        let (atom, inside, rest) = group_at(place)?;
        self.read_negated_group(alloc, declared, params, not_at, atom, inside)?;
        nothing(rest)
    }

    /// Reads conditions, each in its group, to the end of the group that they are in.
    #[cycle(reading)]
    fn read_all(
        &mut self,
        alloc: Global,
        declared: &Declared,
        params: &Typed,
        place: Cursor<'_>,
    ) -> Result<(), Fault>
        ensures { Gives (λ _. conds_of self.new) result (conditions_in declared.now params.now (conds_of self.old) (left place.entry)) }
    {
        let mut here = place;
        'items: loop {
            match here.next() {
                Next::End(_) => return Ok(()),
                Next::Word(at, _, _) => return Err(Fault::Shape(at)),
                Next::Group(atom, inside, rest) => {
                    self.read(alloc, declared, params, atom, inside)?;
                    here = rest;
                }
            }
        }
    }

    /// Reads what is in the group of a condition that begins at the byte.
    #[cycle(reading)]
    pub fn read(
        &mut self,
        alloc: Global,
        declared: &Declared,
        params: &Typed,
        atom: u32,
        inside: Cursor<'_>,
    ) -> Result<(), Fault>
        ensures { Gives (λ _. conds_of self.new) result (condition_in declared.now params.now (conds_of self.old) atom (left inside.entry)) }
    {
        match inside.next() {
            Next::End(_) => Ok(()),
            Next::Word(at, bytes, rest) => match head_of(bytes) {
                Head::And => self.read_all(alloc, declared, params, rest),
                Head::Not => self.read_negated(alloc, declared, params, atom, rest),
                Head::Equal => self.read_equation(declared, params, atom, true, rest),
                Head::At => self.read_present(alloc, declared, params, atom, at, bytes, rest),
                Head::Over => self.read_present(alloc, declared, params, atom, at, bytes, rest),
                Head::Untaken(which) => Err(Fault::Feature(which, atom)),
                Head::Numeric => Err(Fault::Feature(Feature::Numeric, atom)),
                Head::Other => self.read_present(alloc, declared, params, atom, at, bytes, rest),
            },
            Next::Group(at, _, _) => Err(Fault::Shape(at)),
        }
    }

    #[tactic(auto, unfolding(crate::specs::Conditions::tagged))]
    fn read_tagged(
        &mut self,
        alloc: Global,
        declared: &Declared,
        params: &Typed,
        place: Cursor<'_>,
    ) -> Result<(), Fault>
        ensures { Gives (λ _. conds_of self.new) result (tagged declared.now params.now (conds_of self.old) (left place.entry)) }
    {
        let (atom, inside, rest) = group_at(place)?;
        self.read(alloc, declared, params, atom, inside)?;
        nothing(rest)
    }

    /// Reads tagged conditions, each in its group, to the end of the group that they are in.
    #[cycle(timed)]
    fn read_all_timed(
        &mut self,
        alloc: Global,
        declared: &Declared,
        params: &Typed,
        place: Cursor<'_>,
    ) -> Result<(), Fault>
        ensures { Gives (λ _. conds_of self.new) result (timed_conditions_in declared.now params.now (conds_of self.old) (left place.entry)) }
    {
        let mut here = place;
        'items: loop {
            match here.next() {
                Next::End(_) => return Ok(()),
                Next::Word(at, _, _) => return Err(Fault::Shape(at)),
                Next::Group(atom, inside, rest) => {
                    self.read_timed(alloc, declared, params, atom, inside)?;
                    here = rest;
                }
            }
        }
    }

    #[tactic(auto, unfolding(crate::specs::Conditions::at_moment))]
    fn read_at_moment(
        &mut self,
        alloc: Global,
        declared: &Declared,
        params: &Typed,
        place: Cursor<'_>,
    ) -> Result<(), Fault>
        ensures { Gives (λ _. conds_of self.new) result (at_moment declared.now params.now (conds_of self.old) (left place.entry)) }
    {
        let rest = after_moment(place)?;
        self.read_tagged(alloc, declared, params, rest)
    }

    #[tactic(auto, unfolding(crate::specs::Conditions::over_all))]
    fn read_over_all(
        &mut self,
        alloc: Global,
        declared: &Declared,
        params: &Typed,
        place: Cursor<'_>,
    ) -> Result<(), Fault>
        ensures { Gives (λ _. conds_of self.new) result (over_all declared.now params.now (conds_of self.old) (left place.entry)) }
    {
        let rest = after_all(place)?;
        self.read_tagged(alloc, declared, params, rest)
    }

    /// Reads what is in the group of a tagged condition that begins at the byte.
    #[cycle(timed)]
    pub fn read_timed(
        &mut self,
        alloc: Global,
        declared: &Declared,
        params: &Typed,
        atom: u32,
        inside: Cursor<'_>,
    ) -> Result<(), Fault>
        ensures { Gives (λ _. conds_of self.new) result (timed_condition_in declared.now params.now (conds_of self.old) atom (left inside.entry)) }
    {
        match inside.next() {
            Next::End(_) => Ok(()),
            Next::Word(at, bytes, rest) => match head_of(bytes) {
                Head::And => self.read_all_timed(alloc, declared, params, rest),
                Head::Not => Err(if begins_compound(rest) {
                    Fault::Feature(Feature::Negative, atom)
                } else {
                    Fault::Shape(at)
                }),
                Head::Equal => Err(if has_group_side(rest) {
                    Fault::Feature(Feature::Numeric, atom)
                } else {
                    Fault::Shape(at)
                }),
                Head::At => self.read_at_moment(alloc, declared, params, rest),
                Head::Over => self.read_over_all(alloc, declared, params, rest),
                Head::Untaken(which) => Err(Fault::Feature(which, atom)),
                Head::Numeric => Err(Fault::Feature(Feature::Numeric, atom)),
                Head::Other => Err(Fault::Shape(at)),
            },
            Next::Group(at, _, _) => Err(Fault::Shape(at)),
        }
    }
}
