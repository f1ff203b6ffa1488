//! The types of a domain.

ghost use Rattle.std.specs.Prelude.{◌≡◌, false, slice_set, ◌≤◌, ◌∷◌, ◌++◌, ◌==◌, [], drop, length, slice_index_or, ◌<◌, IfOk, Ok};
ghost use Rattle.cpt_pddl.specs.Faults.{Gives};
ghost use Rattle.cpt_pddl.specs.Items.{left};
ghost use Rattle.cpt_pddl.specs.Names.{place_in};
ghost use Rattle.cpt_declared.specs.KindRuns.{run_of};
ghost use Rattle.cpt_declared.specs.Kinds.{adopted, below_parent, dashed, entered_as, finished, is_entered, kinds_in, kinds_rest, misplaced, object_alone, parent_as, start, taken};

use crate::kind_run::Reading;
use cpt_pddl::{Ancestry, Cursor, Fault, Names, Next, is_name, is_word, type_group};
use std::alloc::Global;

/// The types by number, and the parent of each. Type 0 is `object`, its own parent.
#[derive(Drop)]
pub struct Kinds {
    pub names: Names,
    pub parents: Ancestry,
}

fn is_marked(marks: &[bool], kind: u32) -> bool
    ensures { result ≡ slice_index_or marks.now kind false }
{
    match marks.get(kind as usize) {
        None => false,
        Some(mark) => *mark,
    }
}

fn set_parent(parents: &mut [u32], kind: u32, parent: u32)
    ensures { parents.new ≡ slice_set parents.old kind parent }
{
    let kind = kind as usize;
    if kind < parents.len() {
        parents[kind] = parent;
    }
}

fn adopt(parent: u32, kinds: &[u32], parents: &mut [u32])
    ensures { parents.new ≡ adopted parent kinds.now parents.old }
{
    for kind in kinds {
        set_parent(parents, *kind, parent);
    }
}

fn put_below(parent: u32, kinds: &[u32], parents: &mut [u32])
    ensures { parents.new ≡ below_parent parent kinds.now parents.old }
{
    if parent != 0 {
        adopt(parent, kinds, parents);
    }
}

impl Reading {
    /// A type that did not stand before, whose parent is object as yet, and its number.
    fn push(&mut self, bytes: &[u8]) -> Result<u32, Fault>
        ensures number { Gives (λ kind. kind) result (Ok (length self.old.names)) }
        ensures marked { IfOk result (λ kind. kind < length self.new.marks.items) }
        ensures added { Gives (λ _. run_of self.new) result (Ok (record (run_of self.old) { names = self.old.names ++ bytes.now ∷ []; parents = self.old.parents.items ++ 0 ∷ [] })) }
    {
        let kind = self.names.len();
        self.marks.push(false)?;
        self.names.push(bytes)?;
        self.parents.push(0)?;
        Ok(kind)
    }

    fn is_entered(&self, kind: u32) -> bool
        ensures { result ≡ is_entered self.now.entered.items kind }
    {
        kind != 0 && is_marked(self.marks.as_slice(), kind)
    }

    /// The type is entered once more.
    #[tactic(auto, using(crate::proofs::MarkLemmas::marks_entered))]
    fn enter_kind(&mut self, kind: u32) -> Result<(), Fault>
        requires { kind < length self.old.marks.items }
        ensures { Gives (λ _. run_of self.new) result (Ok (record (run_of self.old) { entered = self.old.entered.items ++ kind ∷ [] })) }
    {
        self.entered.push(kind)?;
        self.marks[kind as usize] = true;
        Ok(())
    }

    fn enter(&mut self, at: u32, bytes: &[u8]) -> Result<(), Fault>
        ensures { Gives (λ _. run_of self.new) result (entered_as (run_of self.old) at bytes.now (place_in self.old.names bytes.now)) }
    {
        match self.names.find(bytes) {
            None => {
                let kind = self.push(bytes)?;
                self.enter_kind(kind)?;
            }
            Some(kind) => {
                if self.is_entered(kind) {
                    return Err(Fault::Twice(at));
                }
                self.enter_kind(kind)?;
            }
        }
        Ok(())
    }

    /// The entries that have no parent get this one.
    fn adopt(&mut self, parent: u32)
        ensures { run_of self.new ≡ record (run_of self.old) { parents = below_parent parent (drop self.old.parented self.old.entered.items) self.old.parents.items; parented = length self.old.entered.items; dash = false } }
    {
        put_below(
            parent,
            &self.entered[self.parented..],
            self.parents.as_mut_slice(),
        );
        self.parented = self.entered.len();
        self.dash = false;
    }

    fn set_parent(&mut self, bytes: &[u8]) -> Result<(), Fault>
        ensures { Gives (λ _. run_of self.new) result (Ok (parent_as (run_of self.old) bytes.now (place_in self.old.names bytes.now))) }
    {
        match self.names.find(bytes) {
            None => {
                let parent = self.push(bytes)?;
                self.adopt(parent);
            }
            Some(parent) => self.adopt(parent),
        }
        Ok(())
    }

    #[tactic(auto, unfolding(crate::specs::Kinds::dashed))]
    fn dashed(&mut self, at: u32) -> Result<(), Fault>
        ensures { Gives (λ _. run_of self.new) result (dashed (run_of self.old) at) }
    {
        if self.entered.len() == self.parented {
            return Err(Fault::Shape(at));
        }
        self.dash = true;
        Ok(())
    }

    #[tactic(auto, unfolding(crate::specs::Kinds::taken))]
    fn take(&mut self, at: u32, bytes: &[u8]) -> Result<(), Fault>
        ensures { Gives (λ _. run_of self.new) result (taken (run_of self.old) at bytes.now) }
    {
        if self.dash {
            if is_name(bytes) {
                self.set_parent(bytes)
            } else {
                Err(Fault::Shape(at))
            }
        } else if is_word(bytes, "-") {
            self.dashed(at)
        } else if is_name(bytes) {
            self.enter(at, bytes)
        } else {
            Err(Fault::Shape(at))
        }
    }

    fn misplaced(&self, at: u32, inside: Cursor<'_>) -> Fault
        ensures { result ≡ misplaced (run_of self.now) at (left inside.entry) }
    {
        if self.dash {
            type_group(at, inside)
        } else {
            Fault::Shape(at)
        }
    }

    #[tactic(auto, unfolding(crate::specs::Kinds::finished))]
    fn finish(self, section: u32, close: u32) -> Result<Kinds, Fault>
        ensures { Gives (λ kinds. kinds) result (finished section (run_of self) close) }
    {
        if self.dash {
            return Err(Fault::Shape(close));
        }
        let Reading { names, parents, .. } = self;
        let parents = Ancestry::new(parents)?;
        if !parents.is_rooted() {
            return Err(Fault::BadType(section));
        }
        Ok(Kinds { names, parents })
    }

    fn start(alloc: Global) -> Result<Reading, Fault>
        ensures { Gives run_of result (Ok start) }
    {
        let mut names = Names::new(alloc);
        names.push(b"object")?;
        let mut parents = Vec::new(alloc);
        parents.push(0)?;
        let mut marks = Vec::new(alloc);
        marks.push(false)?;
        Ok(Reading {
            names,
            parents,
            entered: Vec::new(alloc),
            marks,
            parented: 0,
            dash: false,
        })
    }
}

/// The types of the section that begins at the byte.
#[tactic(auto, unfolding(crate::specs::Kinds::kinds_in))]
pub fn kinds_in(alloc: Global, section: u32, place: Cursor<'_>) -> Result<Kinds, Fault>
    ensures { Gives (λ kinds. kinds) result (kinds_in section (left place.entry)) }
{
    let mut run = Reading::start(alloc)?;
    let mut here = place;
    'items: loop {
        match here.next() {
            Next::End(close) => return run.finish(section, close),
            Next::Word(at, bytes, rest) => {
                run.take(at, bytes)?;
                here = rest;
            }
            Next::Group(at, inside, _) => return Err(run.misplaced(at, inside)),
        }
    }
}

/// The types of a domain that declares none.
pub fn object_alone(alloc: Global) -> Result<Kinds, Fault>
    ensures { Gives (λ kinds. kinds) result (Ok object_alone) }
{
    let Reading { names, parents, .. } = Reading::start(alloc)?;
    let parents = Ancestry::new(parents)?;
    Ok(Kinds { names, parents })
}
