//! A sheet that is moved forward by steps and decisions, and back to its marks.

ghost use Rattle.std.specs.Prelude.{◌≡◌, ◌+◌, ◌<◌, ◌≤◌, ◌^◌, ◌++◌, ◌∷◌, [], ℕ, true, false, nat_lt, length, slice_get, Some, IfOk, OnOk, OnErr, MatchBool, MatchOption, IsTrue, ◌↔◌};
ghost use Rattle.cpt_sheet.specs.Formed.{IsFormed};
ghost use Rattle.cpt_sheet.specs.Gaps.{FitsTask};
ghost use Rattle.cpt_sheet.specs.Live.{IsLive, IsDead};
ghost use Rattle.cpt_sheet.specs.View.{before, cands, has, kind_of, span_of};
ghost use Rattle.cpt_calculus.specs.Rules.{IsToken, narrowed};
ghost use Rattle.cpt_calculus.specs.Decisions.{applied, Fits};
ghost use Rattle.cpt_calculus.specs.Root.{root_of};
ghost use Rattle.cpt_store.specs.Deaths.{IsDeadAt, IsLiveAt};
ghost use Rattle.cpt_store.specs.Held.{IsSeatFor, IsSeated, kind_in, kinds_with};
ghost use Rattle.cpt_index.specs.Index.{IsIndexOf, kinds_in};
ghost use Rattle.cpt_index.specs.Lists.{IsConsumer, IsDeleter, IsOffer, IsRival, Lists};
ghost use Rattle.cpt_store.specs.Stores.{CanNarrow, IsBack, IsLent, IsReady, IsSpent, KeepsMarks};

use crate::copies::copy_task;
use cpt_cells::Cells;
use cpt_index::{Index, Seat, index_of};
use cpt_sheet::{Cand, Decision, Interval, Kind, Step};
use cpt_tables::Tables;
use cpt_task::{Memory, Span, Steps, Task};
use std::alloc::Global;
use std::marker::Model;
use std::sync::ledger::Ledger;

/// A task, and tables that fit it.
#[derive(Clone, Copy)]
pub struct Ctx<'a> {
    pub task: &'a Task,
    pub tables: &'a Tables,
}

/// Where a step lands: a token, or the outside occurrences of an action.
pub type Subject = Cand;

/// A decision for which room stands, the numbers of the token that it brings, and its place in the lists.
#[derive(Drop)]
struct Next {
    decision: Decision,
    numbers: Vec<u64>,
    seat: Option<Seat>,
}

/// A sheet of a task, in cells that go back to their marks, and the lists of its atoms and actions, which grow and shrink
/// with its tokens.
#[derive(Drop)]
pub struct Store {
    task: Task,
    cells: Cells,
    index: Index,
    next: Option<Next>,
    markable: bool,
}

impl Model for Store {
    ghost use Rattle.cpt_store.specs.Stores.{StoreShape};

    ghost Value = { StoreShape };

    ghost use Rattle.cpt_store.specs.Held.{shape_of, IsSound};

    ghost view = { shape_of };

    ghost invariant = { IsSound };
}

/// Room in the lists for the token that a decision brings.
fn seat_for(index: &mut Index, task: &Task, decision: &Decision) -> Result<Option<Seat>, Memory>
    requires { IsIndexOf task.now (kinds_in index.old) index.old }
    ensures same { IsIndexOf task.now (kinds_in index.old) index.new }
    ensures seat { IfOk result (IsSeatFor task.now index.new decision.now) }
{
    match *decision {
        Decision::Bring { act, .. } => Ok(Some(index.reserve(task, Kind::Act(act))?)),
        Decision::Join { .. } => Ok(None),
        Decision::Before { .. } => Ok(None),
    }
}

/// The token that a decision brought joins the lists. It takes no memory.
fn seated(index: &mut Index, task: &Task, seat: Option<Seat>)
    requires index { IsIndexOf task.now (kinds_in index.old) index.old }
    requires seat { IsSeated task.now index.old seat }
    requires few { length (kinds_in index.old) < 2 ^ 32 }
    ensures { IsIndexOf task.now (kinds_with (kinds_in index.old) (kind_in seat)) index.new }
{
    if let Some(seat) = seat {
        index.push(task, seat);
    }
}

impl Store {
    /// The root sheet of a bound, with room for its steps.
    pub fn root(alloc: Global, ctx: &Ctx, bound: u64) -> Result<Store, Memory>
        requires tables { FitsTask ctx.now.task.now ctx.now.tables.now }
        requires bound { bound ≤ 1000000 }
        ensures task { IfOk result (λ s. s.task ≡ ctx.now.task.now) }
        ensures sheet { IfOk result (λ s. s.sheet ≡ root_of ctx.now.task.now ctx.now.tables.now bound) }
        ensures formed { IfOk result (λ s. IsFormed ctx.now.task.now s.sheet) }
        ensures marks { IfOk result (λ s. s.marks ≡ []) }
        ensures spent { IfOk result IsSpent }
    {
        let _ = ctx.tables.dists.actions();
        let cells = Cells::root(alloc, ctx.task, ctx.tables, bound)?;
        let task = copy_task(alloc, ctx.task)?;
        let index = index_of(alloc, &task, &[Kind::Start, Kind::End])?;
        Ok(Store {
            task,
            cells,
            index,
            next: None,
            markable: false,
        })
    }

    /// The greatest makespan.
    pub fn bound(&self) -> u64
        ensures { result ≡ self.now.sheet.bound }
    {
        self.cells.bound()
    }

    /// How many tokens there are.
    pub fn tokens(&self) -> u32
        ensures value { result ≡ length self.now.sheet.tokens }
        ensures few { result ≤ 4200000000 }
    {
        self.cells.tokens() as u32
    }

    /// Whether there is such a token.
    fn is_token(&self, x: u32) -> bool
        ensures { result ≡ nat_lt x (length self.now.sheet.tokens) }
    {
        (x as usize) < self.cells.tokens()
    }

    /// What a token stands for.
    pub fn kind(&self, tok: u32) -> Kind
        requires { tok < length self.now.sheet.tokens }
        ensures { result ≡ kind_of self.now.sheet (Cand.Tok tok) }
    {
        self.cells.kind(tok)
    }

    /// What a token stands for, and the start where there is no such token.
    fn token_kind(&self, x: u32) -> Kind
        ensures { result ≡ kind_of self.now.sheet (Cand.Tok x) }
    {
        if self.is_token(x) {
            self.cells.kind(x)
        } else {
            Kind::Start
        }
    }

    /// What a token or an outside action stands for.
    pub fn kind_at(&self, c: Cand) -> Kind
        ensures { result ≡ kind_of self.now.sheet c }
    {
        match c {
            Cand::Tok(x) => self.token_kind(x),
            Cand::Out(a) => Kind::Act(a),
        }
    }

    /// When a token may begin.
    pub fn span(&self, tok: u32) -> Interval
        requires { tok < length self.now.sheet.tokens }
        ensures { result ≡ span_of self.now.sheet (Cand.Tok tok) }
    {
        self.cells.span(tok)
    }

    /// When the outside occurrences of an action may begin.
    pub fn out(&self, act: u32) -> Interval
        requires { act < length self.now.task.actions }
        ensures { result ≡ span_of self.now.sheet (Cand.Out act) }
    {
        self.cells.out_at(act)
    }

    /// When a token may begin: never where there is no such token.
    fn token_span(&self, x: u32) -> Interval
        ensures { result ≡ span_of self.now.sheet (Cand.Tok x) }
    {
        if self.is_token(x) {
            self.cells.span(x)
        } else {
            Interval {
                lo: Span::Never,
                hi: 0,
            }
        }
    }

    /// When a token or the outside occurrences of an action may begin.
    pub fn span_at(&self, c: Cand) -> Interval
        ensures { result ≡ span_of self.now.sheet c }
    {
        match c {
            Cand::Tok(x) => self.token_span(x),
            Cand::Out(a) => self.cells.out_at(a),
        }
    }

    /// Whether the first token ends before the second begins.
    pub fn before(&self, first: u32, second: u32) -> bool
        ensures { result ≡ before self.now.sheet first second }
    {
        self.is_placed(first, second) && self.cells.before(first, second)
    }

    /// How many candidates are left of a token for an atom.
    pub fn count(&self, tok: u32, pre: u32) -> u32
        requires { tok < length self.now.sheet.tokens }
        ensures { result ≡ length (cands self.now.sheet tok pre) }
    {
        self.cells.count(tok, pre) as u32
    }

    /// The candidate at a place of the list of a token for an atom.
    pub fn cand(&self, tok: u32, pre: u32, place: u32) -> Cand
        requires { place < length (cands self.now.sheet tok pre) }
        ensures { slice_get (cands self.now.sheet tok pre) place ≡ Some result }
    {
        self.cells.cand(tok, pre, place as usize)
    }

    /// The first candidate of a token for an atom.
    pub(crate) fn first(&self, tok: u32, pre: u32) -> Option<Cand>
        ensures { result ≡ slice_get (cands self.now.sheet tok pre) 0 }
    {
        if self.is_token(tok) {
            self.cells.first(tok, pre)
        } else {
            None
        }
    }

    /// Whether the candidate stands in the list of the token for the atom.
    pub fn holds(&self, tok: u32, pre: u32, c: Cand) -> bool
        ensures { result ≡ has c (cands self.now.sheet tok pre) }
    {
        self.is_token(tok) && self.cells.holds(tok, pre, c)
    }

    /// The one token of the list of the token for the atom, where it is one token.
    pub fn supplier(&self, tok: u32, pre: u32) -> Option<u32>
        ensures { MatchOption result ((y : ℕ) → IsToken (cands self.now.sheet tok pre) y → ⊥) (λ y. IsToken (cands self.now.sheet tok pre) y) }
    {
        if self.is_token(tok) {
            self.cells.supplier(tok, pre)
        } else {
            None
        }
    }

    /// Whether the sheet is dead.
    pub fn dead(&self) -> bool
        ensures { MatchBool result (IsDead self.now.sheet) (IsLive self.now.sheet) }
    {
        self.cells.dead()
    }

    /// Whether a step of a live sheet that lands at this subject has made it dead: then the subject is a token without a
    /// moment, or with a list without a candidate. An outside action never makes a sheet dead.
    pub fn dead_at(&self, at: Cand) -> bool
        ensures { MatchBool result (IsDeadAt self.now.sheet at) (IsLiveAt self.now.sheet at) }
    {
        match at {
            Cand::Tok(x) => self.is_token(x) && self.cells.is_dead_token(x),
            Cand::Out(_) => false,
        }
    }

    /// The tokens and outside actions that add the atom.
    pub fn offers(&self, p: u32) -> &[Cand]
        ensures { Lists (IsOffer self.now.task self.now.sheet p) result.now }
    {
        self.index.offers(p)
    }

    /// The tokens that delete the atom.
    pub fn deleters(&self, p: u32) -> &[u32]
        ensures { Lists (IsDeleter self.now.task self.now.sheet p) result.now }
    {
        self.index.deleters(p)
    }

    /// The tokens that need the atom.
    pub fn consumers(&self, p: u32) -> &[u32]
        ensures { Lists (IsConsumer self.now.sheet p) result.now }
    {
        self.index.consumers(p)
    }

    /// The tokens that interfere with the action.
    pub fn rivals(&self, act: u32) -> &[u32]
        ensures { Lists (IsRival self.now.task self.now.sheet act) result.now }
    {
        self.index.rivals(act)
    }

    /// Makes a legal step. It takes no memory.
    pub fn narrow<L: Ledger>(&mut self, step: &Step, steps: &mut Steps<L>)
        requires { CanNarrow self.old step.now }
        ensures task { self.new.task ≡ self.old.task }
        ensures sheet { self.new.sheet ≡ narrowed self.old.sheet step.now }
        ensures marks { KeepsMarks self.old.marks self.new.marks }
        ensures spent { IsSpent self.new }
    {
        self.markable = false;
        self.next = None;
        self.cells.narrow(step, steps);
    }

    /// Room for a decision, for the steps after it and for one mark. The sheet and the marks stay.
    pub fn reserve(&mut self, ctx: &Ctx, decision: &Decision) -> Result<(), Memory>
        requires lent { IsLent ctx.now.task.now ctx.now.tables.now self.old }
        requires fits { Fits self.old.sheet decision.now }
        requires few { length self.old.sheet.tokens < 4200000000 }
        ensures task { self.new.task ≡ self.old.task }
        ensures sheet { self.new.sheet ≡ self.old.sheet }
        ensures marks { self.new.marks ≡ self.old.marks }
        ensures ready { OnOk result (IsReady ctx.now.task.now self.new decision.now) }
        ensures markable { OnOk result (self.new.markable ≡ true) }
        ensures err { OnErr result (IsSpent self.new) }
    {
        let _ = ctx;
        self.markable = false;
        self.next = None;
        let alloc = *self.index.seats.allocator();
        let numbers = self.cells.prepare(alloc, &self.task, decision)?;
        let seat = seat_for(&mut self.index, &self.task, decision)?;
        self.next = Some(Next {
            decision: *decision,
            numbers,
            seat,
        });
        self.markable = true;
        Ok(())
    }

    /// Makes a decision for which room stands. It takes no memory.
    pub fn apply<L: Ledger>(&mut self, ctx: &Ctx, decision: &Decision, steps: &mut Steps<L>)
        requires lent { IsLent ctx.now.task.now ctx.now.tables.now self.old }
        requires fits { Fits self.old.sheet decision.now }
        requires ready { IsReady ctx.now.task.now self.old decision.now }
        requires few { length self.old.sheet.tokens < 4200000000 }
        ensures task { self.new.task ≡ self.old.task }
        ensures sheet { self.new.sheet ≡ applied ctx.now.task.now self.old.sheet decision.now }
        ensures marks { KeepsMarks self.old.marks self.new.marks }
        ensures spent { IsSpent self.new }
    {
        self.markable = false;
        if let Some(Next { numbers, seat, .. }) = self.next.take() {
            self.cells.apply(&self.task, decision, &numbers, steps);
            seated(&mut self.index, &self.task, seat);
        }
    }

    /// A new mark. The answer is how many stood before. It takes no memory.
    pub fn mark(&mut self) -> usize
        requires { self.old.markable ≡ true }
        ensures number { result ≡ length self.old.marks }
        ensures task { self.new.task ≡ self.old.task }
        ensures sheet { self.new.sheet ≡ self.old.sheet }
        ensures ready { self.new.ready ≡ self.old.ready }
        ensures markable { self.new.markable ≡ false }
        ensures marks { self.new.marks ≡ self.old.marks ++ record { sheet = self.old.sheet; written = 0 } ∷ [] }
    {
        self.markable = false;
        self.cells.mark()
    }

    /// Goes back to the newest mark, which is gone then. It takes no memory.
    pub fn undo_to<L: Ledger>(&mut self, mark: usize, steps: &mut Steps<L>)
        requires { mark + 1 ≡ length self.old.marks }
        ensures back { IsBack self.old self.new steps.old steps.new }
        ensures spent { IsSpent self.new }
    {
        self.markable = false;
        self.next = None;
        self.cells.undo_to(mark, steps);
        let count = self.cells.tokens();
        self.index.shorten(&self.task, count);
    }
}
