//! Tables over actions and atoms.

ghost use Rattle.cpt_task.specs.declared.limits.TheConstants.{ACTION_LIMIT, ATOM_LIMIT};
ghost use Rattle.std.specs.Prelude.{◌≡◌, ◌+◌, ◌*◌, ◌<◌, ◌≤◌, IfOk};
ghost use Rattle.cpt_tables.specs.Spans.{IsBelow};
ghost use Rattle.cpt_tables.specs.Shapes.{dist_at, dists_of, with_dist, SetsDist, IsFilledDists, IsSmallDists, IsWholeDists};

use cpt_task::{Memory, Span};
use std::alloc::Global;
use std::marker::Model;

/// A table of spans over actions and atoms.
#[derive(Debug, Drop)]
pub struct DistTable {
    actions: u32,
    atoms: u32,
    values: Vec<Span>,
}

impl Model for DistTable {
    ghost use Rattle.cpt_task.specs.declared.limits.TheConstants.{ACTION_LIMIT, ATOM_LIMIT};
    ghost use Rattle.std.specs.Prelude.{◌≡◌, ◌≤◌, ◌*◌, length};
    ghost use Rattle.cpt_tables.specs.Shapes.{DistShape};

    ghost Value = { DistShape };

    ghost view = { λ t. record { actions = t.actions; atoms = t.atoms; values = t.values.items } };

    ghost invariant = { λ t. (length t.values.items ≡ t.actions * t.atoms) × (t.actions ≤ ACTION_LIMIT) × (t.atoms ≤ ATOM_LIMIT) };
}

impl DistTable {
    /// A table over so many actions and atoms with this value everywhere.
    pub fn filled(alloc: Global, actions: u32, atoms: u32, value: Span) -> Result<DistTable, Memory>
        requires actions { actions ≤ ACTION_LIMIT }
        requires atoms { atoms ≤ ATOM_LIMIT }
        ensures table { IfOk result (λ table. table ≡ dists_of actions atoms value) }
        ensures filled { IfOk result (λ table. IsFilledDists table value) }
        ensures small { IfOk result (λ table. IsBelow 1000000000000000 value → IsSmallDists table) }
    {
        let mut values = Vec::new(alloc);
        values.resize(actions as usize * atoms as usize, value)?;
        Ok(DistTable {
            actions,
            atoms,
            values,
        })
    }

    /// The number of actions.
    pub fn actions(&self) -> u32
        ensures value { result ≡ self.now.actions }
        ensures few { result ≤ ACTION_LIMIT }
    {
        self.actions
    }

    /// The number of atoms.
    pub fn atoms(&self) -> u32
        ensures value { result ≡ self.now.atoms }
        ensures few { result ≤ ATOM_LIMIT }
        ensures whole { IsWholeDists self.now }
    {
        self.atoms
    }

    fn place_of(&self, act: u32, atom: u32) -> usize
        requires act { act < self.now.actions }
        requires atom { atom < self.now.atoms }
        ensures place { result ≡ act * self.now.atoms + atom }
    {
        act as usize * self.atoms as usize + atom as usize
    }

    /// The value of an action and an atom.
    pub fn get(&self, act: u32, atom: u32) -> Span
        requires act { act < self.now.actions }
        requires atom { atom < self.now.atoms }
        ensures { result ≡ dist_at self.now act atom }
    {
        self.values[self.place_of(act, atom)]
    }

    /// Sets the value of an action and an atom.
    pub fn set(&mut self, act: u32, atom: u32, value: Span)
        requires act { act < self.old.actions }
        requires atom { atom < self.old.atoms }
        ensures sets { SetsDist self.old self.new act atom value }
        ensures table { self.new ≡ with_dist self.old act atom value }
        ensures small { IsSmallDists self.old → IsBelow 1000000000000000 value → IsSmallDists self.new }
    {
        let place = self.place_of(act, atom);
        self.values[place] = value;
    }
}
