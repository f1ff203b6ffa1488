//! The effects of an action.

ghost use Rattle.std.specs.Prelude.{◌≡◌, ◌∷◌, ◌++◌, [], Ok};
ghost use Rattle.cpt_pddl.specs.Faults.{Gives};
ghost use Rattle.cpt_pddl.specs.Items.{left};
ghost use Rattle.cpt_schema.specs.Effects.{add_atom, added, delete_atom, delete_group, deleted, deletion, effect_by, effect_in, effects_in, has_marked, tag_next, tag_word, tagged_effect, timed_effect_by, timed_effect_in, timed_effects_in, with_effect};
ghost use Rattle.cpt_schema.specs.Shapes.{effs_of};

use crate::terms::{Lit, atom_in, same_lit};
use cpt_declared::Declared;
use cpt_pddl::{Cursor, Fault, Feature, Head, Next, Typed, group_at, head_of, is_word, nothing};
use cpt_task::CONDITION_LIMIT;
use std::alloc::Global;

/// An atom that is added or deleted. It is marked where it is added at the start or deleted at the end.
#[derive(Drop)]
pub struct Effect {
    pub lit: Lit,
    pub marked: bool,
}

/// The effects of an action.
#[derive(Drop)]
pub struct Effects {
    pub adds: Vec<Effect>,
    pub dels: Vec<Effect>,
}

/// When an effect is said to happen. A tag is named by the byte of its parenthesis.
#[derive(Clone, Copy)]
pub enum Tag {
    Plain,
    Start(u32),
    End(u32),
}

fn has_marked(effects: &[Effect], lit: &Lit) -> bool
    ensures { result ≡ has_marked effects.now lit.now }
{
    for e in effects {
        if e.marked && same_lit(&e.lit, lit) {
            return true;
        }
    }
    false
}

fn push(effects: &mut Vec<Effect>, lit: Lit, marked: bool) -> Result<(), Fault>
    ensures { Gives (λ _. effects.new.items) result (Ok (with_effect effects.old.items lit marked)) }
{
    effects.push(Effect { lit, marked })?;
    Ok(())
}

fn tag_word(atom: u32, at: u32, bytes: &[u8]) -> Result<Tag, Fault>
    ensures { Gives (λ tag. tag) result (tag_word atom at bytes.now) }
{
    if is_word(bytes, "start") {
        Ok(Tag::Start(atom))
    } else if is_word(bytes, "end") {
        Ok(Tag::End(atom))
    } else {
        Err(Fault::Shape(at))
    }
}

fn tag_next<'a>(atom: u32, place: Cursor<'a>) -> Result<(Tag, Cursor<'a>), Fault>
    ensures { Gives (λ found. (found.0, left found.1)) result (tag_next atom (left place.entry)) }
{
    match place.next() {
        Next::End(close) => Err(Fault::Shape(close)),
        Next::Word(at, bytes, rest) => {
            let tag = tag_word(atom, at, bytes)?;
            Ok((tag, rest))
        }
        Next::Group(at, _, _) => Err(Fault::Shape(at)),
    }
}

impl Effects {
    /// No effects.
    pub fn new(alloc: Global) -> Effects
        ensures { effs_of result ≡ record { adds = []; dels = [] } }
    {
        Effects {
            adds: Vec::new(alloc),
            dels: Vec::new(alloc),
        }
    }

    fn add(&mut self, tag: Tag, lit: Lit) -> Result<(), Fault>
        ensures { Gives (λ _. effs_of self.new) result (added tag (effs_of self.old) lit) }
    {
        match tag {
            Tag::Plain => push(&mut self.adds, lit, false),
            Tag::Start(at) => {
                if has_marked(self.dels.as_slice(), &lit) {
                    return Err(Fault::Window(at));
                }
                push(&mut self.adds, lit, true)
            }
            Tag::End(_) => push(&mut self.adds, lit, false),
        }
    }

    fn delete(&mut self, tag: Tag, lit: Lit) -> Result<(), Fault>
        ensures { Gives (λ _. effs_of self.new) result (deleted tag (effs_of self.old) lit) }
    {
        match tag {
            Tag::Plain => push(&mut self.dels, lit, false),
            Tag::Start(_) => push(&mut self.dels, lit, false),
            Tag::End(at) => {
                if has_marked(self.adds.as_slice(), &lit) {
                    return Err(Fault::Window(at));
                }
                push(&mut self.dels, lit, true)
            }
        }
    }

    #[tactic(auto, unfolding(crate::specs::Effects::add_atom))]
    fn read_added(
        &mut self,
        alloc: Global,
        declared: &Declared,
        params: &Typed,
        tag: Tag,
        atom: u32,
        at: u32,
        bytes: &[u8],
        rest: Cursor<'_>,
    ) -> Result<(), Fault>
        ensures { Gives (λ _. effs_of self.new) result (add_atom declared.now params.now tag (effs_of self.old) atom at bytes.now (left rest.entry)) }
    {
        let full = self.adds.len() >= CONDITION_LIMIT;
        let lit = atom_in(alloc, declared, params, full, atom, at, bytes, rest)?;
        self.add(tag, lit)
    }

    #[tactic(auto, unfolding(crate::specs::Effects::delete_atom))]
    fn read_deleted(
        &mut self,
        alloc: Global,
        declared: &Declared,
        params: &Typed,
        tag: Tag,
        atom: u32,
        at: u32,
        bytes: &[u8],
        rest: Cursor<'_>,
    ) -> Result<(), Fault>
        ensures { Gives (λ _. effs_of self.new) result (delete_atom declared.now params.now tag (effs_of self.old) atom at bytes.now (left rest.entry)) }
    {
        let full = self.dels.len() >= CONDITION_LIMIT;
        let lit = atom_in(alloc, declared, params, full, atom, at, bytes, rest)?;
        self.delete(tag, lit)
    }

    fn read_deleted_group(
        &mut self,
        alloc: Global,
        declared: &Declared,
        params: &Typed,
        tag: Tag,
        atom: u32,
        inside: Cursor<'_>,
    ) -> Result<(), Fault>
        ensures { Gives (λ _. effs_of self.new) result (delete_group declared.now params.now tag (effs_of self.old) atom (left inside.entry)) }
    {
        match inside.next() {
            Next::End(close) => Err(Fault::Shape(close)),
            Next::Word(at, bytes, rest) => self.read_deleted(
                alloc, declared, params, tag, atom, at, bytes, rest,
            ),
            Next::Group(at, _, _) => Err(Fault::Shape(at)),
        }
    }

    #[tactic(auto, unfolding(crate::specs::Effects::deletion))]
    fn read_deletion(
        &mut self,
        alloc: Global,
        declared: &Declared,
        params: &Typed,
        tag: Tag,
        place: Cursor<'_>,
    ) -> Result<(), Fault>
        ensures { Gives (λ _. effs_of self.new) result (deletion declared.now params.now tag (effs_of self.old) (left place.entry)) }
    {
        let (atom, inside, rest) = group_at(place)?;
        self.read_deleted_group(alloc, declared, params, tag, atom, inside)?;
        nothing(rest)
    }

    /// Reads effects, each in its group, to the end of the group that they are in.
    #[cycle(reading)]
    fn read_all(
        &mut self,
        alloc: Global,
        declared: &Declared,
        params: &Typed,
        tag: Tag,
        place: Cursor<'_>,
    ) -> Result<(), Fault>
        ensures { Gives (λ _. effs_of self.new) result (effects_in declared.now params.now tag (effs_of self.old) (left place.entry)) }
    {
        let mut here = place;
        'items: loop {
            match here.next() {
                Next::End(_) => return Ok(()),
                Next::Word(at, _, _) => return Err(Fault::Shape(at)),
                Next::Group(atom, inside, rest) => {
                    self.read(alloc, declared, params, tag, atom, inside)?;
                    here = rest;
                }
            }
        }
    }

    /// Reads what is in the group of an effect that begins at the byte.
    #[cycle(reading)]
    pub fn read(
        &mut self,
        alloc: Global,
        declared: &Declared,
        params: &Typed,
        tag: Tag,
        atom: u32,
        inside: Cursor<'_>,
    ) -> Result<(), Fault>
        ensures { Gives (λ _. effs_of self.new) result (effect_in declared.now params.now tag (effs_of self.old) atom (left inside.entry)) }
    {
        match inside.next() {
            Next::End(_) => Ok(()),
            Next::Word(at, bytes, rest) => match head_of(bytes) {
                Head::And => self.read_all(alloc, declared, params, tag, rest),
                Head::Not => self.read_deletion(alloc, declared, params, tag, rest),
                Head::Equal => self.read_added(alloc, declared, params, tag, atom, at, bytes, rest),
                Head::At => self.read_added(alloc, declared, params, tag, atom, at, bytes, rest),
                Head::Over => self.read_added(alloc, declared, params, tag, atom, at, bytes, rest),
                Head::Untaken(which) => Err(Fault::Feature(which, atom)),
                Head::Numeric => Err(Fault::Feature(Feature::Numeric, atom)),
                Head::Other => self.read_added(alloc, declared, params, tag, atom, at, bytes, rest),
            },
            Next::Group(at, _, _) => Err(Fault::Shape(at)),
        }
    }

    #[tactic(auto, unfolding(crate::specs::Effects::tagged_effect))]
    fn read_tagged(
        &mut self,
        alloc: Global,
        declared: &Declared,
        params: &Typed,
        atom: u32,
        place: Cursor<'_>,
    ) -> Result<(), Fault>
        ensures { Gives (λ _. effs_of self.new) result (tagged_effect declared.now params.now (effs_of self.old) atom (left place.entry)) }
    {
        let (tag, rest) = tag_next(atom, place)?;
        let (at, inside, rest) = group_at(rest)?;
        self.read(alloc, declared, params, tag, at, inside)?;
        nothing(rest)
    }

    /// Reads tagged effects, each in its group, to the end of the group that they are in.
    #[cycle(timed)]
    fn read_all_timed(
        &mut self,
        alloc: Global,
        declared: &Declared,
        params: &Typed,
        place: Cursor<'_>,
    ) -> Result<(), Fault>
        ensures { Gives (λ _. effs_of self.new) result (timed_effects_in declared.now params.now (effs_of self.old) (left place.entry)) }
    {
        let mut here = place;
        'items: loop {
            match here.next() {
                Next::End(_) => return Ok(()),
                Next::Word(at, _, _) => return Err(Fault::Shape(at)),
                Next::Group(atom, inside, rest) => {
                    self.read_timed(alloc, declared, params, atom, inside)?;
                    here = rest;
                }
            }
        }
    }

    /// Reads what is in the group of a tagged effect that begins at the byte.
    #[cycle(timed)]
    pub fn read_timed(
        &mut self,
        alloc: Global,
        declared: &Declared,
        params: &Typed,
        atom: u32,
        inside: Cursor<'_>,
    ) -> Result<(), Fault>
        ensures { Gives (λ _. effs_of self.new) result (timed_effect_in declared.now params.now (effs_of self.old) atom (left inside.entry)) }
    {
        match inside.next() {
            Next::End(_) => Ok(()),
            Next::Word(at, bytes, rest) => match head_of(bytes) {
                Head::And => self.read_all_timed(alloc, declared, params, rest),
                Head::Not => Err(Fault::Shape(at)),
                Head::Equal => Err(Fault::Shape(at)),
                Head::At => self.read_tagged(alloc, declared, params, atom, rest),
                Head::Over => Err(Fault::Shape(at)),
                Head::Untaken(which) => Err(Fault::Feature(which, atom)),
                Head::Numeric => Err(Fault::Feature(Feature::Numeric, atom)),
                Head::Other => Err(Fault::Shape(at)),
            },
            Next::Group(at, _, _) => Err(Fault::Shape(at)),
        }
    }
}
