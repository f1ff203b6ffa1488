//! Tables over pairs of atoms.

ghost use Rattle.cpt_task.specs.declared.limits.TheConstants.{ATOM_LIMIT};
ghost use Rattle.std.specs.Prelude.{◌≡◌, ◌<◌, ◌≤◌, IfOk};
ghost use Rattle.cpt_tables.specs.Spans.{IsBelow};
ghost use Rattle.cpt_tables.specs.Shapes.{pair_at, pair_place, pairs_of, with_pair, SetsPair, IsFilledPairs, IsSmallPairs, IsWholePairs};

use cpt_task::{Memory, Span};
use std::alloc::Global;
use std::marker::Model;

/// A symmetric table of spans over pairs of atoms, an atom with itself included.
#[derive(Debug, Drop)]
pub struct PairTable {
    atoms: u32,
    values: Vec<Span>,
}

impl Model for PairTable {
    ghost use Rattle.cpt_task.specs.declared.limits.TheConstants.{ATOM_LIMIT};
    ghost use Rattle.std.specs.Prelude.{◌≡◌, ◌≤◌, length};
    ghost use Rattle.cpt_tables.specs.Shapes.{PairShape, row_start};

    ghost Value = { PairShape };

    ghost view = { λ t. record { atoms = t.atoms; values = t.values.items } };

    ghost invariant = { λ t. (length t.values.items ≡ row_start t.atoms) × (t.atoms ≤ ATOM_LIMIT) };
}

/// Where the value of two atoms stands: each row has the pairs of an atom with the atoms up to it.
fn place_of(p: u32, q: u32) -> usize
    requires first { p < ATOM_LIMIT }
    requires second { q < ATOM_LIMIT }
    ensures { result ≡ pair_place p q }
{
    let row = p.max(q) as usize;
    row * (row + 1) / 2 + p.min(q) as usize
}

impl PairTable {
    /// A table over `n` atoms with this value everywhere.
    pub fn filled(alloc: Global, n: u32, value: Span) -> Result<PairTable, Memory>
        requires { n ≤ ATOM_LIMIT }
        ensures table { IfOk result (λ table. table ≡ pairs_of n value) }
        ensures filled { IfOk result (λ table. IsFilledPairs table value) }
        ensures small { IfOk result (λ table. IsBelow 1000000000000000 value → IsSmallPairs table) }
    {
        let rows = n as usize;
        let mut values = Vec::new(alloc);
        values.resize(rows * (rows + 1) / 2, value)?;
        Ok(PairTable { atoms: n, values })
    }

    /// The number of atoms.
    pub fn atoms(&self) -> u32
        ensures value { result ≡ self.now.atoms }
        ensures few { result ≤ ATOM_LIMIT }
        ensures whole { IsWholePairs self.now }
    {
        self.atoms
    }

    /// The value of two atoms, in either order.
    pub fn get(&self, p: u32, q: u32) -> Span
        requires first { p < self.now.atoms }
        requires second { q < self.now.atoms }
        ensures { result ≡ pair_at self.now p q }
    {
        self.values[place_of(p, q)]
    }

    /// Sets the value of two atoms, in either order.
    pub fn set(&mut self, p: u32, q: u32, value: Span)
        requires first { p < self.old.atoms }
        requires second { q < self.old.atoms }
        ensures sets { SetsPair self.old self.new p q value }
        ensures table { self.new ≡ with_pair self.old p q value }
        ensures small { IsSmallPairs self.old → IsBelow 1000000000000000 value → IsSmallPairs self.new }
    {
        self.values[place_of(p, q)] = value;
    }
}
