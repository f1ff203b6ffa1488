//! Who is to be asked for a step.

ghost use Rattle.std.specs.Prelude.{◌≡◌, ℕ, ◌<◌, ◌≤◌, ◌^◌, [], length, slice_index_or, slice_set, false, IfOk, OnOk, MatchOption};
ghost use Rattle.cpt_sheet.specs.View.{has};
ghost use Rattle.cpt_agenda.specs.Marks.{clear};
ghost use Rattle.cpt_agenda.specs.Agendas.{HasMark, HasNone, IsIdle, IsNext, IsPut};

use cpt_sheet::Cand;
use cpt_task::Memory;
use std::alloc::Global;
use std::collections::VecDeque;
use std::marker::Model;

/// Subjects that wait, first in first out, each at most once.
#[derive(Drop)]
pub struct Agenda {
    queue: VecDeque<Cand>,
    tokens: Vec<bool>,
    acts: Vec<bool>,
}

impl Model for Agenda {
    ghost use Rattle.cpt_agenda.specs.Marks.{clear};
    ghost use Rattle.cpt_agenda.specs.Agendas.{AgendaShape};

    ghost Value = { AgendaShape };

    ghost use Rattle.cpt_agenda.specs.Cells.{shape_of, IsSound};

    ghost view = { shape_of };

    ghost invariant = { IsSound };
}

fn is_marked(marks: &[bool], k: u32) -> bool
    ensures { result ≡ slice_index_or marks.now k false }
{
    match marks.get(k as usize) {
        Some(mark) => *mark,
        None => false,
    }
}

fn set_mark(marks: &mut Vec<bool>, k: u32, to: bool)
    ensures { marks.new.items ≡ slice_set marks.old.items k to }
{
    if (k as usize) < marks.len() {
        marks[k as usize] = to;
    }
}

fn blank(alloc: Global, count: usize) -> Result<Vec<bool>, Memory>
    ensures { IfOk result (λ v. v.items ≡ clear count) }
{
    let mut marks = Vec::with_capacity(alloc, count)?;
    for _ in 0..count {
        marks.push(false)?;
    }
    Ok(marks)
}

impl Agenda {
    /// No one waits, and there are marks and room for so many tokens and actions.
    pub fn new(alloc: Global, tokens: usize, acts: usize) -> Result<Agenda, Memory>
        requires tokens { tokens < 2 ^ 48 }
        requires acts { acts < 2 ^ 48 }
        ensures tokens { IfOk result (λ a. a.tokens ≡ tokens) }
        ensures acts { IfOk result (λ a. a.acts ≡ acts) }
        ensures idle { IfOk result IsIdle }
    {
        let queue = VecDeque::with_capacity(alloc, tokens + acts)?;
        let tokens = blank(alloc, tokens)?;
        let acts = blank(alloc, acts)?;
        Ok(Agenda {
            queue,
            tokens,
            acts,
        })
    }

    /// Whether the subject waits.
    pub fn waits(&self, c: Cand) -> bool
        ensures { result ≡ has c self.now.waiting }
    {
        match c {
            Cand::Tok(x) => is_marked(&self.tokens, x),
            Cand::Out(a) => is_marked(&self.acts, a),
        }
    }

    /// Puts the subject on it, if it does not wait already.
    pub fn put(&mut self, c: Cand)
        requires { HasMark self.old c }
        ensures put { IsPut c self.old self.new }
        ensures within { length self.new.waiting ≤ self.new.room }
    {
        if self.waits(c) {
            return;
        }
        self.queue.push_back_reserved(c);
        match c {
            Cand::Tok(x) => set_mark(&mut self.tokens, x, true),
            Cand::Out(a) => set_mark(&mut self.acts, a, true),
        }
    }

    /// Takes off the one that has waited longest.
    pub fn next(&mut self) -> Option<Cand>
        ensures { MatchOption result (HasNone self.old self.new) (λ c. IsNext c self.old self.new) }
    {
        let c = self.queue.pop_front()?;
        match c {
            Cand::Tok(x) => set_mark(&mut self.tokens, x, false),
            Cand::Out(a) => set_mark(&mut self.acts, a, false),
        }
        Some(c)
    }

    /// Takes all off.
    fn clear(&mut self)
        ensures { IsIdle self.new }
    {
        while let Some(_) = self.next() {}
    }

    /// No one waits, and there are marks and room for so many tokens and actions at least. After `Memory` it may have
    /// lost who waited.
    pub fn ready(&mut self, alloc: Global, tokens: usize, acts: usize) -> Result<(), Memory>
        requires tokens { tokens < 2 ^ 40 }
        requires acts { acts < 2 ^ 40 }
        ensures idle { OnOk result (IsIdle self.new) }
        ensures tokens { OnOk result (tokens ≤ self.new.tokens) }
        ensures acts { OnOk result (acts ≤ self.new.acts) }
    {
        self.clear();
        if self.tokens.len() < tokens || self.acts.len() < acts {
            *self = Agenda::new(alloc, 2 * tokens, acts)?;
        }
        Ok(())
    }
}
