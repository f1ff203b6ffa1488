//! Goals.

ghost use Rattle.std.specs.Prelude.{◌≡◌};
ghost use Rattle.cpt_pddl.specs.Faults.{Gives};
ghost use Rattle.cpt_pddl.specs.Items.{left};
ghost use Rattle.cpt_pddl.specs.Words.{head_of};
ghost use Rattle.cpt_problem.specs.Goals.{absent_atom, goal_by, goal_in, goal_part, goals_in, negated, negated_by, negated_group, no_aims, present_atom};
ghost use Rattle.cpt_problem.specs.Shapes.{aims_of};

use crate::atoms::atom_in;
use cpt_declared::Declared;
use cpt_facts::Fact;
use cpt_pddl::{Cursor, Fault, Feature, Head, Next, group_at, head_of, nothing};
use std::alloc::Global;

/// A goal so far: the atoms that are to be there, and those that are to be absent.
#[derive(Drop)]
pub struct Goals {
    pub present: Vec<Fact>,
    pub absent: Vec<Fact>,
}

impl Goals {
    /// No goal yet.
    pub fn new(alloc: Global) -> Goals
        ensures { aims_of result ≡ no_aims }
    {
        Goals {
            present: Vec::new(alloc),
            absent: Vec::new(alloc),
        }
    }

    #[tactic(auto, unfolding(crate::specs::Goals::present_atom))]
    fn read_present(
        &mut self,
        alloc: Global,
        declared: &Declared,
        atom: u32,
        at: u32,
        bytes: &[u8],
        rest: Cursor<'_>,
    ) -> Result<(), Fault>
        ensures { Gives (λ _. aims_of self.new) result (present_atom declared.now (aims_of self.old) atom at bytes.now (left rest.entry)) }
    {
        let fact = atom_in(alloc, declared, atom, at, bytes, rest)?;
        self.present.push(fact)?;
        Ok(())
    }

    #[tactic(auto, unfolding(crate::specs::Goals::absent_atom))]
    fn read_absent(
        &mut self,
        alloc: Global,
        declared: &Declared,
        atom: u32,
        at: u32,
        bytes: &[u8],
        rest: Cursor<'_>,
    ) -> Result<(), Fault>
        ensures { Gives (λ _. aims_of self.new) result (absent_atom declared.now (aims_of self.old) atom at bytes.now (left rest.entry)) }
    {
        let fact = atom_in(alloc, declared, atom, at, bytes, rest)?;
        self.absent.push(fact)?;
        Ok(())
    }

    fn read_negated_by(
        &mut self,
        alloc: Global,
        declared: &Declared,
        not_at: u32,
        atom: u32,
        at: u32,
        bytes: &[u8],
        rest: Cursor<'_>,
    ) -> Result<(), Fault>
        ensures { Gives (λ _. aims_of self.new) result (negated_by declared.now (aims_of self.old) not_at atom at bytes.now (left rest.entry) (head_of bytes.now)) }
    {
        match head_of(bytes) {
            Head::And => Err(Fault::Feature(Feature::Negative, not_at)),
            Head::Not => Err(Fault::Feature(Feature::Negative, not_at)),
            Head::Equal => Err(Fault::Feature(Feature::GoalEquality, atom)),
            Head::At => self.read_absent(alloc, declared, atom, at, bytes, rest),
            Head::Over => self.read_absent(alloc, declared, atom, at, bytes, rest),
            Head::Untaken(_) => Err(Fault::Feature(Feature::Negative, not_at)),
            Head::Numeric => self.read_absent(alloc, declared, atom, at, bytes, rest),
            Head::Other => self.read_absent(alloc, declared, atom, at, bytes, rest),
        }
    }

    fn read_negated_group(
        &mut self,
        alloc: Global,
        declared: &Declared,
        not_at: u32,
        atom: u32,
        inside: Cursor<'_>,
    ) -> Result<(), Fault>
        ensures { Gives (λ _. aims_of self.new) result (negated_group declared.now (aims_of self.old) not_at atom (left inside.entry)) }
    {
        match inside.next() {
            Next::End(close) => Err(Fault::Shape(close)),
            Next::Word(at, bytes, rest) => {
                self.read_negated_by(alloc, declared, not_at, atom, at, bytes, rest)
            }
            Next::Group(at, _, _) => Err(Fault::Shape(at)),
        }
    }

    #[tactic(auto, unfolding(crate::specs::Goals::negated))]
    fn read_negated(
        &mut self,
        alloc: Global,
        declared: &Declared,
        not_at: u32,
        place: Cursor<'_>,
    ) -> Result<(), Fault>
        ensures { Gives (λ _. aims_of self.new) result (negated declared.now (aims_of self.old) not_at (left place.entry)) }
    {
        let (atom, inside, rest) = group_at(place)?;
        self.read_negated_group(alloc, declared, not_at, atom, inside)?;
        nothing(rest)
    }

    /// Reads goals, each in its group, to the end of the group that they are in.
    #[cycle(reading)]
    fn read_all(
        &mut self,
        alloc: Global,
        declared: &Declared,
        place: Cursor<'_>,
    ) -> Result<(), Fault>
        ensures { Gives (λ _. aims_of self.new) result (goals_in declared.now (aims_of self.old) (left place.entry)) }
    {
        let mut here = place;
        'items: loop {
            match here.next() {
                Next::End(_) => return Ok(()),
                Next::Word(at, _, _) => return Err(Fault::Shape(at)),
                Next::Group(atom, inside, rest) => {
                    self.read(alloc, declared, atom, inside)?;
                    here = rest;
                }
            }
        }
    }

    /// Reads what is in the group of a goal that begins at the byte.
    #[cycle(reading)]
    fn read(
        &mut self,
        alloc: Global,
        declared: &Declared,
        atom: u32,
        inside: Cursor<'_>,
    ) -> Result<(), Fault>
        ensures { Gives (λ _. aims_of self.new) result (goal_in declared.now (aims_of self.old) atom (left inside.entry)) }
    {
        match inside.next() {
            Next::End(_) => Ok(()),
            Next::Word(at, bytes, rest) => match head_of(bytes) {
                Head::And => self.read_all(alloc, declared, rest),
                Head::Not => self.read_negated(alloc, declared, atom, rest),
                Head::Equal => Err(Fault::Feature(Feature::GoalEquality, atom)),
                Head::At => self.read_present(alloc, declared, atom, at, bytes, rest),
                Head::Over => self.read_present(alloc, declared, atom, at, bytes, rest),
                Head::Untaken(which) => Err(Fault::Feature(which, atom)),
                Head::Numeric => Err(Fault::Feature(Feature::Numeric, atom)),
                Head::Other => self.read_present(alloc, declared, atom, at, bytes, rest),
            },
            Next::Group(at, _, _) => Err(Fault::Shape(at)),
        }
    }
}

/// The one goal of a section, and nothing more.
#[tactic(auto, unfolding(crate::specs::Goals::goal_part))]
pub fn goal_part(alloc: Global, declared: &Declared, place: Cursor<'_>) -> Result<Goals, Fault>
    ensures { Gives aims_of result (goal_part declared.now (left place.entry)) }
{
    let (atom, inside, rest) = group_at(place)?;
    let mut goals = Goals::new(alloc);
    goals.read(alloc, declared, atom, inside)?;
    nothing(rest)?;
    Ok(goals)
}
