//! A pair table that is being lowered.

ghost use Rattle.std.specs.Prelude.{◌≡◌, ◌<◌, ◌≤◌, false, length, All};
ghost use Rattle.cpt_tables.specs.Spans.{◌≤ˢ◌};
ghost use Rattle.cpt_tables.specs.Shapes.{pair_at};
ghost use Rattle.cpt_tables.specs.Weights.{IsNextTo};
ghost use Rattle.cpt_h2.specs.Board.{MarksShape, BoardShape, IsGood, IsClear, LowersPair, Drops, AllBelow};

use crate::marks::Marks;
use cpt_tables::{PairTable, exceeds};
use cpt_task::Span;
use std::marker::Model;
use std::mem;

/// A pair table that is being lowered, with a mark at each atom whose values have changed in this round, and
/// whether some have.
#[derive(Debug, Drop)]
pub struct Board {
    pairs: PairTable,
    marks: Marks,
    moved: bool,
}

impl Model for Board {
    ghost use Rattle.cpt_h2.specs.Board.{BoardShape};

    ghost Value = { BoardShape };

    ghost view = { λ b. record { pairs = b.pairs; marks = b.marks; moved = b.moved } };
}

impl Board {
    /// A board with this table and these marks.
    pub fn new(pairs: PairTable, marks: Marks) -> Board
        ensures { result ≡ record { pairs = pairs; marks = marks; moved = false } }
    {
        Board {
            pairs,
            marks,
            moved: false,
        }
    }

    /// The table.
    pub fn pairs(&self) -> &PairTable
        ensures { result.now ≡ self.now.pairs }
    {
        &self.pairs
    }

    /// The table alone.
    pub fn into_pairs(self) -> PairTable
        ensures { result ≡ self.pairs }
    {
        let Board { pairs, .. } = self;
        pairs
    }

    /// Whether a value has changed in this round.
    pub fn has_moved(&self) -> bool
        ensures { result ≡ self.now.moved }
    {
        self.moved
    }

    /// Takes the marks out, for a new round.
    pub fn start_round(&mut self, looked: &mut Marks)
        requires size { length looked.old.atoms ≡ self.old.pairs.atoms }
        ensures marks { looked.new ≡ self.old.marks }
        ensures pairs { self.new.pairs ≡ self.old.pairs }
        ensures moved { self.new.moved ≡ false }
        ensures size { length self.new.marks.atoms ≡ length looked.old.atoms }
        ensures clear { IsClear self.new.marks (length looked.old.atoms) }
    {
        mem::swap(&mut self.marks, looked);
        self.marks.clear();
        self.moved = false;
    }

    /// Lowers the value of two atoms to this one where it is greater.
    pub fn lower(&mut self, p: u32, q: u32, value: Span)
        requires good { IsGood self.old }
        requires first { p < self.old.pairs.atoms }
        requires second { q < self.old.pairs.atoms }
        ensures { LowersPair self.old self.new p q value }
    {
        if exceeds(self.pairs.get(p, q), value) {
            self.pairs.set(p, q, value);
            self.marks.add(p);
            self.marks.add(q);
            self.moved = true;
        }
    }

    /// Lowers the values of an atom with each of the others to this one where they are greater.
    fn lower_row(&mut self, p: u32, qs: &[u32], value: Span)
        requires good { IsGood self.old }
        requires next { IsNextTo self.old.pairs.values value }
        requires first { p < self.old.pairs.atoms }
        requires second { All (λ q. q < self.old.pairs.atoms) qs.now }
        ensures drops { Drops (λ g. All (λ q. pair_at g p q ≤ˢ value) qs.now) self.old self.new }
        ensures met { All (λ q. pair_at self.new.pairs p q ≤ˢ value) qs.now }
    {
        for q in qs {
            self.lower(p, *q, value);
        }
    }

    /// Lowers the values of each of the first atoms with each of the second to this one where they are greater.
    pub fn lower_all(&mut self, ps: &[u32], qs: &[u32], value: Span)
        requires good { IsGood self.old }
        requires next { IsNextTo self.old.pairs.values value }
        requires first { All (λ p. p < self.old.pairs.atoms) ps.now }
        requires second { All (λ q. q < self.old.pairs.atoms) qs.now }
        ensures drops { Drops (λ g. AllBelow g ps.now qs.now value) self.old self.new }
        ensures met { AllBelow self.new.pairs ps.now qs.now value }
    {
        for p in ps {
            self.lower_row(*p, qs, value);
        }
    }
}
