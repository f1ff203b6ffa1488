//! The steps of a sheet in cells.

ghost use Rattle.std.specs.Prelude.{◌≡◌, ◌≤◌, ◌+◌};
ghost use Rattle.cpt_sheet.specs.View.{cands};
ghost use Rattle.cpt_calculus.specs.Rules.{change_of, narrowed, only};
ghost use Rattle.cpt_cells.specs.Shapes.{KeepsMarks};
ghost use Rattle.cpt_cells.specs.Lists.{IsStepOf, token_of};

use crate::cells::Cells;
use cpt_sheet::{Cand, Change, Step};
use cpt_task::{Span, Steps};
use std::sync::ledger::Ledger;

fn raising(at: Cand, to: Span) -> Change
    ensures { result ≡ Change.Raise at to }
{
    Change::Raise { at, to }
}

fn lowering(at: Cand, to: Span) -> Change
    ensures { result ≡ Change.Lower at to }
{
    Change::Lower { at, to }
}

fn taking(tok: u32, pre: u32, cand: Cand) -> Change
    ensures { result ≡ Change.Take tok pre cand }
{
    Change::Take { tok, pre, cand }
}

fn posting(first: u32, second: u32) -> Change
    ensures { result ≡ Change.Post first second }
{
    Change::Post { first, second }
}

/// The number of a token, and 0 for anything else.
fn token_of(first: Option<Cand>) -> u32
    ensures { result ≡ token_of first }
{
    match first {
        Some(Cand::Tok(y)) => y,
        Some(Cand::Out(_)) => 0,
        None => 0,
    }
}

impl Cells {
    /// The token that a list begins with, and 0 where it begins with none.
    fn only(&self, x: u32, p: u32) -> u32
        ensures { result ≡ only (cands self.now.sheet x p) }
    {
        if (x as usize) < self.tokens() {
            token_of(self.first(x, p))
        } else {
            0
        }
    }

    /// What a step changes.
    fn change(&self, step: Step) -> Change
        ensures { result ≡ change_of self.now.sheet step }
    {
        match step {
            Step::R1 { second, to, .. } => raising(Cand::Tok(second), to),
            Step::R2 { first, to, .. } => lowering(Cand::Tok(first), to),
            Step::R3 { first, second } => posting(first, second),
            Step::R4 { tok, to, .. } => raising(Cand::Tok(tok), to),
            Step::R5 { tok, pre, cand } => taking(tok, pre, cand),
            Step::R6 { tok, pre } => posting(self.only(tok, pre), tok),
            Step::R7 { tok, pre, act } => taking(tok, pre, Cand::Out(act)),
            Step::R8 { tok, pre, cand, .. } => taking(tok, pre, cand),
            Step::R9After { tok, foe, .. } => posting(tok, foe),
            Step::R9Ahead { tok, pre, foe } => posting(foe, self.only(tok, pre)),
            Step::R10 { act, to, .. } => raising(Cand::Out(act), to),
            Step::R11After { act, to, .. } => raising(Cand::Out(act), to),
            Step::R11Ahead { act, to, .. } => lowering(Cand::Out(act), to),
            Step::R12After { act, to, .. } => raising(Cand::Out(act), to),
            Step::R12Ahead { act, to, .. } => lowering(Cand::Out(act), to),
            Step::R13 { tok, pre, cand, .. } => taking(tok, pre, cand),
        }
    }

    /// Makes a step that is legal for some task, at a sheet that is formed for it.
    pub fn narrow<L: Ledger>(&mut self, step: &Step, steps: &mut Steps<L>)
        requires { IsStepOf self.old.sheet step.now }
        ensures frame { self.new.frame ≡ self.old.frame }
        ensures sheet { self.new.sheet ≡ narrowed self.old.sheet step.now }
        ensures marks { KeepsMarks self.old.marks self.new.marks }
        ensures ticks { steps.new ≤ steps.old + 1 }
    {
        let change = self.change(*step);
        self.make(change, steps);
    }
}
