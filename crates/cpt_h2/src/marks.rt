//! Marks at atoms.

ghost use Rattle.std.specs.Prelude.{◌≡◌, ◌<◌, ◌++◌, false, true, length, slice_set, replicate, All, MatchBool, slice_index_or};
ghost use Rattle.cpt_h2.specs.Board.{MarksShape, IsUnmarked, IsQuiet};

use std::marker::Model;

/// Which atoms are marked: all of them, or those that the list says.
#[derive(Debug, Drop)]
pub struct Marks {
    every: bool,
    atoms: Vec<bool>,
}

impl Model for Marks {
    ghost use Rattle.cpt_h2.specs.Board.{MarksShape};

    ghost Value = { MarksShape };

    ghost view = { λ m. record { every = m.every; atoms = m.atoms.items } };
}

fn is_unmarked(atoms: &[bool], p: u32) -> bool
    ensures { result ≡ true → slice_index_or atoms.now p true ≡ false }
{
    match atoms.get(p as usize) {
        Some(mark) => !*mark,
        None => false,
    }
}

fn are_unmarked(atoms: &[bool], ps: &[u32]) -> bool
    ensures { result ≡ true → All (λ p. slice_index_or atoms.now p true ≡ false) ps.now }
{
    for p in ps {
        if !is_unmarked(atoms, *p) {
            return false;
        }
    }
    true
}

fn clear(atoms: &mut [bool])
    ensures { All (λ mark. mark ≡ false) atoms.new }
{
    for mark in atoms.iter_mut() {
        *mark = false;
    }
}

impl Marks {
    /// Marks for these atoms, all marked.
    pub fn from_vec(atoms: Vec<bool>) -> Marks
        ensures { result ≡ record { every = true; atoms = atoms.items } }
    {
        Marks { every: true, atoms }
    }

    /// Whether none of the atoms is known to be marked.
    pub fn is_quiet(&self, ps: &[u32]) -> bool
        ensures { result ≡ true → IsQuiet self.now ps.now }
    {
        !self.every && are_unmarked(&self.atoms, ps)
    }

    /// Whether none of the atoms of both lists is known to be marked.
    pub fn are_quiet(&self, ps: &[u32], qs: &[u32]) -> bool
        ensures { result ≡ true → IsQuiet self.now (ps.now ++ qs.now) }
    {
        self.is_quiet(qs) && self.is_quiet(ps)
    }

    /// Marks the atom.
    pub fn add(&mut self, p: u32)
        requires { p < length self.old.atoms }
        ensures { self.new ≡ record { every = self.old.every; atoms = slice_set self.old.atoms p true } }
    {
        self.atoms[p as usize] = true;
    }

    /// Takes all marks away.
    pub fn clear(&mut self)
        ensures some { self.new.every ≡ false }
        ensures size { length self.new.atoms ≡ length self.old.atoms }
        ensures none { All (λ mark. mark ≡ false) self.new.atoms }
    {
        self.every = false;
        clear(&mut self.atoms);
    }
}
