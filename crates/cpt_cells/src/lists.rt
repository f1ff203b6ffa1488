//! The candidate lists of a sheet in cells.

ghost use Rattle.std.specs.Prelude.{◌≡◌, ◌≢◌, ◌<◌, ℕ, true, false, length, slice_index};
ghost use Rattle.cpt_sheet.specs.View.{cands, has};
ghost use Rattle.cpt_calculus.specs.Decisions.{joined};
ghost use Rattle.cpt_layout.specs.Places.{adders_at, needs_at};
ghost use Rattle.cpt_block.specs.Blocks.{list_in};
ghost use Rattle.cpt_cells.specs.Shapes.{KeepsMarks};
ghost use Rattle.cpt_cells.specs.Lists.{IsSameBut};

use crate::cells::Cells;
use cpt_sheet::Cand;
use cpt_task::Steps;
use std::sync::ledger::Ledger;

impl Cells {
    /// Whether a candidate is in the list of a token at a place among its preconditions.
    fn lists(&self, x: u32, j: usize, c: Cand) -> bool
        requires token { x < length self.now.sheet.tokens }
        requires need { j < length (needs_at self.now.frame x) }
        ensures { result ≡ has c (list_in self.now.sheet x j) }
    {
        match c {
            Cand::Tok(y) => self.lists_token(x, j, y),
            Cand::Out(a) => self.lists_out(x, j, a),
        }
    }

    /// Whether the candidate stands in the list of the token for the atom.
    pub fn holds(&self, x: u32, p: u32, c: Cand) -> bool
        requires { x < length self.now.sheet.tokens }
        ensures { result ≡ has c (cands self.now.sheet x p) }
    {
        let j = self.place(x, p);
        if j < self.needs(x).len() {
            self.lists(x, j, c)
        } else {
            false
        }
    }

    /// Takes a candidate from a list, if it is in it.
    fn let_go<L: Ledger>(&mut self, x: u32, p: u32, c: Cand, steps: &mut Steps<L>)
        requires { x < length self.old.sheet.tokens }
        ensures frame { self.new.frame ≡ self.old.frame }
        ensures sheet { IsSameBut self.old.sheet self.new.sheet x p }
        ensures gone { has c (cands self.new.sheet x p) ≡ false }
        ensures others { (d : Cand) → d ≢ c → has d (cands self.new.sheet x p) ≡ has d (cands self.old.sheet x p) }
        ensures marks { KeepsMarks self.old.marks self.new.marks }
    {
        self.keeps_order(x, p);
        if self.holds(x, p, c) {
            self.take(x, p, c, steps);
        }
    }

    /// Takes a token from a list, if it is in it and not y.
    fn let_go_other<L: Ledger>(&mut self, x: u32, p: u32, z: u32, y: u32, steps: &mut Steps<L>)
        requires { x < length self.old.sheet.tokens }
        ensures frame { self.new.frame ≡ self.old.frame }
        ensures sheet { IsSameBut self.old.sheet self.new.sheet x p }
        ensures gone { z ≢ y → has (Cand.Tok z) (cands self.new.sheet x p) ≡ false }
        ensures others { (d : Cand) → d ≢ Cand.Tok z → has d (cands self.new.sheet x p) ≡ has d (cands self.old.sheet x p) }
        ensures stays { has (Cand.Tok y) (cands self.new.sheet x p) ≡ has (Cand.Tok y) (cands self.old.sheet x p) }
        ensures marks { KeepsMarks self.old.marks self.new.marks }
    {
        if z != y {
            self.let_go(x, p, Cand::Tok(z), steps);
        }
    }

    /// Takes each other token from a list.
    fn leave_token<L: Ledger>(&mut self, x: u32, p: u32, y: u32, steps: &mut Steps<L>)
        requires { x < length self.old.sheet.tokens }
        ensures frame { self.new.frame ≡ self.old.frame }
        ensures sheet { IsSameBut self.old.sheet self.new.sheet x p }
        ensures gone { (z : ℕ) → z < length self.old.frame.kinds → z ≢ y → has (Cand.Tok z) (cands self.new.sheet x p) ≡ false }
        ensures stays { has (Cand.Tok y) (cands self.new.sheet x p) ≡ has (Cand.Tok y) (cands self.old.sheet x p) }
        ensures marks { KeepsMarks self.old.marks self.new.marks }
    {
        for z in 0..self.tokens() {
            self.let_go_other(x, p, z as u32, y, steps);
        }
    }

    /// Takes from a list the outside action at a place among those that add the atom.
    fn let_go_out<L: Ledger>(&mut self, x: u32, p: u32, place: usize, steps: &mut Steps<L>)
        requires token { x < length self.old.sheet.tokens }
        requires place { place < length (adders_at self.old.frame p) }
        ensures frame { self.new.frame ≡ self.old.frame }
        ensures sheet { IsSameBut self.old.sheet self.new.sheet x p }
        ensures gone { has (Cand.Out (slice_index (adders_at self.old.frame p) place)) (cands self.new.sheet x p) ≡ false }
        ensures fewer { (d : Cand) → has d (cands self.old.sheet x p) ≡ false → has d (cands self.new.sheet x p) ≡ false }
        ensures stays { (z : ℕ) → has (Cand.Tok z) (cands self.new.sheet x p) ≡ has (Cand.Tok z) (cands self.old.sheet x p) }
        ensures marks { KeepsMarks self.old.marks self.new.marks }
    {
        let a = self.adders(p)[place];
        self.let_go(x, p, Cand::Out(a), steps);
    }

    /// Takes each outside action from a list.
    fn leave_no_out<L: Ledger>(&mut self, x: u32, p: u32, steps: &mut Steps<L>)
        requires { x < length self.old.sheet.tokens }
        ensures frame { self.new.frame ≡ self.old.frame }
        ensures sheet { IsSameBut self.old.sheet self.new.sheet x p }
        ensures gone { (k : ℕ) → k < length (adders_at self.old.frame p) → has (Cand.Out (slice_index (adders_at self.old.frame p) k)) (cands self.new.sheet x p) ≡ false }
        ensures stays { (z : ℕ) → has (Cand.Tok z) (cands self.new.sheet x p) ≡ has (Cand.Tok z) (cands self.old.sheet x p) }
        ensures marks { KeepsMarks self.old.marks self.new.marks }
    {
        for place in 0..self.adders(p).len() {
            self.let_go_out(x, p, place, steps);
        }
    }

    /// Leaves a token alone in a list that it is in: the decision that it is the one.
    pub fn leave<L: Ledger>(&mut self, x: u32, p: u32, y: u32, steps: &mut Steps<L>)
        requires token { x < length self.old.sheet.tokens }
        requires listed { has (Cand.Tok y) (cands self.old.sheet x p) ≡ true }
        ensures frame { self.new.frame ≡ self.old.frame }
        ensures sheet { self.new.sheet ≡ joined self.old.sheet x p y }
        ensures marks { KeepsMarks self.old.marks self.new.marks }
    {
        self.leave_token(x, p, y, steps);
        self.leave_no_out(x, p, steps);
        self.keeps_order(x, p);
    }
}
