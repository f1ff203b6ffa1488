//! A sheet in the cells of a trail.

ghost use Rattle.std.specs.Prelude.{◌≡◌, ◌<◌, ◌≤◌, ◌+◌, ◌++◌, ◌∷◌, [], ◌^◌, ℕ, false, true, length, slice_index, OnOk};
ghost use Rattle.cpt_sheet.specs.Formed.{IsPlaced};
ghost use Rattle.cpt_sheet.specs.Edits.{changed, with_posted};
ghost use Rattle.cpt_sheet.specs.View.{span_of, kind_of, before, has, cands, token_at};
ghost use Rattle.cpt_cells.specs.Shapes.{SheetMark, HasRoomFor, KeepsMarks, KeepsRoom, IsBackAt, IsCellOf, written_of};
ghost use Rattle.cpt_layout.specs.Sheets.{IsSmall};

use crate::appending::append_all;
use crate::spans::{number_of_span, span_of_number};
use cpt_layout::{Layout, place_of};
use cpt_sheet::{Cand, Change, Interval, Kind, needs_of};
use cpt_task::{Memory, Span, Steps, Task};
use cpt_trail::Trail;
use std::marker::Model;
use std::sync::ledger::Ledger;

/// A sheet in the cells of a trail. The layout says which cell holds what, and `end` is how many cells there are.
#[derive(Drop)]
pub struct Cells {
    trail: Trail,
    layout: Layout,
    end: usize,
}

impl Model for Cells {
    ghost use Rattle.cpt_cells.specs.Shapes.{CellsShape};

    ghost Value = { CellsShape };

    ghost use Rattle.cpt_cells.specs.Held.{shape_of, IsHeld};

    ghost view = { shape_of };

    ghost invariant = { IsHeld };
}

impl Cells {
    ghost use Rattle.cpt_task.specs.Shape.{TaskShape};
    ghost use Rattle.cpt_layout.specs.Places.{Place, IsThere, NoTwice, adders_at, all_cands, atom_at, extended, kept, member, needs_at, needs_by, order};
    ghost use Rattle.cpt_layout.specs.Numbers.{cell_of, cells_in};
    ghost use Rattle.cpt_block.specs.Blocks.{IsFrameOf, block, grown, list_in};
    ghost use Rattle.cpt_cells.specs.Marks.{IsHeldBy, seen_by};
    ghost use Rattle.cpt_layout.specs.Puts.{Puts, lo_of, hi_of, IsSpanOf, IsCandCell, CanMake};

    /// Cells of these parts.
    pub(crate) fn of_parts(trail: Trail, layout: Layout, end: usize) -> Cells
        requires { IsHeldBy trail layout.frame end }
        ensures { result ≡ seen_by trail layout }
    {
        Cells { trail, layout, end }
    }

    /// The interval of a token.
    pub fn span(&self, x: u32) -> Interval
        requires { x < length self.now.sheet.tokens }
        ensures { result ≡ span_of self.now.sheet (Cand.Tok x) }
    {
        let cell = self.layout.tok_cell(x);
        Interval {
            lo: span_of_number(self.trail.get(cell)),
            hi: self.trail.get(cell + 1),
        }
    }

    /// The interval of the outside occurrences of an action.
    pub fn out(&self, a: u32) -> Interval
        requires { a < length self.now.sheet.outs }
        ensures { result ≡ span_of self.now.sheet (Cand.Out a) }
    {
        let cell = self.layout.out_cell(a);
        Interval {
            lo: span_of_number(self.trail.get(cell)),
            hi: self.trail.get(cell + 1),
        }
    }

    /// The interval of the outside occurrences of an action; none where there is no such action.
    pub fn out_at(&self, a: u32) -> Interval
        ensures { result ≡ span_of self.now.sheet (Cand.Out a) }
    {
        if 2 * (a as usize) < self.layout.out_cells() {
            self.out(a)
        } else {
            Interval {
                lo: Span::Never,
                hi: 0,
            }
        }
    }

    /// The greatest makespan.
    pub fn bound(&self) -> u64
        ensures { result ≡ self.now.sheet.bound }
    {
        self.layout.bound()
    }

    /// How many tokens there are.
    pub fn tokens(&self) -> usize
        ensures value { result ≡ length self.now.sheet.tokens }
        ensures kinds { result ≡ length self.now.frame.kinds }
        ensures few { result < 2 ^ 32 }
    {
        self.layout.tokens()
    }

    /// What a token needs.
    pub fn needs(&self, x: u32) -> &[u32]
        requires { x < length self.now.sheet.tokens }
        ensures value { result.now ≡ needs_at self.now.frame x }
        ensures lists { length result.now ≡ length (token_at self.now.sheet x).lists }
    {
        self.layout.needs(x)
    }

    /// The actions that add an atom.
    pub fn adders(&self, p: u32) -> &[u32]
        ensures { result.now ≡ adders_at self.now.frame p }
    {
        self.layout.adders(p)
    }

    /// The place of an atom among what a token needs, or how many these are where it is none of them.
    pub fn place(&self, x: u32, p: u32) -> usize
        requires { x < length self.now.sheet.tokens }
        ensures within { result ≤ length (needs_at self.now.frame x) }
        ensures atom { result < length (needs_at self.now.frame x) → atom_at self.now.frame x result ≡ p }
        ensures list { result < length (needs_at self.now.frame x) → cands self.now.sheet x p ≡ list_in self.now.sheet x result }
        ensures none { length (needs_at self.now.frame x) ≤ result → cands self.now.sheet x p ≡ [] }
    {
        place_of(self.layout.needs(x), p)
    }

    /// A list has its tokens first, then its outside actions, both ascending, and none twice.
    pub fn keeps_order(&self, x: u32, p: u32)
        requires { x < length self.now.sheet.tokens }
        ensures order { cands self.now.sheet x p ≡ kept (λ c. has c (cands self.now.sheet x p)) (all_cands self.now.frame p) }
        ensures once { NoTwice (all_cands self.now.frame p) }
    {
        let _ = &self.trail;
    }

    /// The same of the list at a place among the preconditions of the token.
    pub fn keeps_order_at(&self, x: u32, j: usize)
        requires token { x < length self.now.sheet.tokens }
        requires need { j < length (needs_at self.now.frame x) }
        ensures { list_in self.now.sheet x j ≡ kept (λ c. has c (list_in self.now.sheet x j)) (all_cands self.now.frame (atom_at self.now.frame x j)) }
    {
        let _ = &self.trail;
    }

    /// Whether a token is in the list of a token at a place among its preconditions.
    pub fn lists_token(&self, x: u32, j: usize, y: u32) -> bool
        requires token { x < length self.now.sheet.tokens }
        requires need { j < length (needs_at self.now.frame x) }
        ensures { result ≡ has (Cand.Tok y) (list_in self.now.sheet x j) }
    {
        if (y as usize) < self.layout.tokens() {
            self.lists_known(x, j, y)
        } else {
            false
        }
    }

    /// The same of a token that is there.
    fn lists_known(&self, x: u32, j: usize, y: u32) -> bool
        requires token { x < length self.now.sheet.tokens }
        requires need { j < length (needs_at self.now.frame x) }
        requires known { y < length self.now.frame.kinds }
        ensures { result ≡ has (Cand.Tok y) (list_in self.now.sheet x j) }
    {
        if y == x {
            false
        } else {
            self.trail.get(self.layout.token_cand_cell(x, j, y)) == 1
        }
    }

    /// Whether an outside action is in the list of a token at a place among its preconditions.
    pub fn lists_out(&self, x: u32, j: usize, a: u32) -> bool
        requires token { x < length self.now.sheet.tokens }
        requires need { j < length (needs_at self.now.frame x) }
        ensures { result ≡ has (Cand.Out a) (list_in self.now.sheet x j) }
    {
        let adders = self.layout.adders(self.layout.needs(x)[j]);
        if place_of(adders, a) < adders.len() {
            self.trail.get(self.layout.out_cand_cell(x, j, a)) == 1
        } else {
            false
        }
    }

    /// Where it stands whether the first of the outside actions that add the atom is in the list of a token at a place among
    /// its preconditions, and 0 where no action adds it.
    pub(crate) fn outs_cell(&self, x: u32, j: usize) -> usize
        requires token { x < length self.now.sheet.tokens }
        requires need { j < length (needs_at self.now.frame x) }
        ensures { 0 < length (adders_at self.now.frame (atom_at self.now.frame x j)) → result ≡ cell_of self.now.frame (member x j (Cand.Out (slice_index (adders_at self.now.frame (atom_at self.now.frame x j)) 0))) }
    {
        let adders = self.layout.adders(self.layout.needs(x)[j]);
        if adders.is_empty() {
            0
        } else {
            self.layout.out_cand_cell(x, j, adders[0])
        }
    }

    /// Whether an outside action is in the list of a token at a place among its preconditions, where the action is named by
    /// its place among those that add the atom and the cell of the first of them is known: their cells lie one behind the
    /// other.
    pub(crate) fn lists_behind(&self, x: u32, j: usize, first: usize, place: usize) -> bool
        requires token { x < length self.now.sheet.tokens }
        requires need { j < length (needs_at self.now.frame x) }
        requires place { place < length (adders_at self.now.frame (atom_at self.now.frame x j)) }
        requires first { first ≡ cell_of self.now.frame (member x j (Cand.Out (slice_index (adders_at self.now.frame (atom_at self.now.frame x j)) 0))) }
        ensures { result ≡ has (Cand.Out (slice_index (adders_at self.now.frame (atom_at self.now.frame x j)) place)) (list_in self.now.sheet x j) }
    {
        self.trail.get(first + place) == 1
    }

    /// What a token stands for.
    pub fn kind(&self, x: u32) -> Kind
        requires { x < length self.now.sheet.tokens }
        ensures { result ≡ kind_of self.now.sheet (Cand.Tok x) }
    {
        self.layout.kind(x)
    }

    /// Room for a token of so many cells and needs, if there is to be one, for an entry of each cell that is there, and
    /// for one mark.
    pub fn reserve(&mut self, cells: usize, tokens: usize, needs: usize) -> Result<(), Memory>
        ensures frame { self.new.frame ≡ self.old.frame }
        ensures sheet { self.new.sheet ≡ self.old.sheet }
        ensures marks { self.new.marks ≡ self.old.marks }
        ensures cell_room { OnOk result (cells ≤ self.new.cell_room) }
        ensures token_room { OnOk result (tokens ≤ self.new.token_room) }
        ensures need_room { OnOk result (needs ≤ self.new.need_room) }
        ensures room { OnOk result (0 < self.new.mark_room) }
        ensures entries { OnOk result (self.new.cells ≤ self.new.entry_room) }
    {
        self.trail.reserve(cells, self.end, 1)?;
        self.layout.reserve(tokens, needs)
    }

    /// Room for a token more of this kind, whose cells are so many, for an entry of each cell that is there, and for one
    /// mark.
    pub fn room_for(&mut self, task: &Task, kind: Kind, count: usize) -> Result<(), Memory>
        requires frame { IsFrameOf task.now self.old.frame }
        requires count { count ≡ length (block task.now self.old.frame self.old.sheet kind 0 0) }
        ensures frame { self.new.frame ≡ self.old.frame }
        ensures sheet { self.new.sheet ≡ self.old.sheet }
        ensures marks { self.new.marks ≡ self.old.marks }
        ensures token { OnOk result (HasRoomFor self.new kind count) }
        ensures room { OnOk result (0 < self.new.mark_room) }
        ensures entries { OnOk result (self.new.cells ≤ self.new.entry_room) }
    {
        if count > usize::MAX - self.end {
            return Err(Memory);
        }
        self.reserve(count, 1, needs_of(task, kind).len())
    }

    /// A new mark. The answer is how many stood before.
    pub fn mark(&mut self) -> usize
        requires room { 0 < self.old.mark_room }
        requires entries { self.old.cells ≤ self.old.entry_room }
        ensures number { result ≡ length self.old.marks }
        ensures frame { self.new.frame ≡ self.old.frame }
        ensures sheet { self.new.sheet ≡ self.old.sheet }
        ensures room { KeepsRoom self.old self.new }
        ensures marks { self.new.marks ≡ self.old.marks ++ record { sheet = self.old.sheet; written = 0 } ∷ [] }
    {
        self.trail.mark()
    }

    /// Writes one number.
    fn put<L: Ledger>(&mut self, cell: usize, value: u64, steps: &mut Steps<L>)
        requires { IsCellOf self.old.frame cell }
        ensures frame { self.new.frame ≡ self.old.frame }
        ensures sheet { (q : Place) → IsThere self.old.frame q → cell ≡ cell_of self.old.frame q → Puts self.old.frame self.old.sheet self.new.sheet q value }
        ensures marks { KeepsMarks self.old.marks self.new.marks }
        ensures ticks { steps.new ≡ steps.old + 1 }
    {
        self.trail.write(cell, value, steps);
    }

    /// Where the interval of a token or an outside action stands.
    fn span_cell(&self, at: Cand) -> usize
        requires { IsSpanOf self.now.sheet at }
        ensures lo { result ≡ cell_of self.now.frame (lo_of at) }
        ensures hi { result + 1 ≡ cell_of self.now.frame (hi_of at) }
        ensures there { IsThere self.now.frame (hi_of at) }
        ensures lo_there { IsThere self.now.frame (lo_of at) }
        ensures fits { result + 1 < 2 ^ 64 }
    {
        match at {
            Cand::Tok(x) => self.layout.tok_cell(x),
            Cand::Out(a) => self.layout.out_cell(a),
        }
    }

    /// Raises a lo.
    fn raise<L: Ledger>(&mut self, at: Cand, to: Span, steps: &mut Steps<L>)
        requires there { IsSpanOf self.old.sheet at }
        requires small { IsSmall to }
        ensures frame { self.new.frame ≡ self.old.frame }
        ensures sheet { self.new.sheet ≡ changed self.old.sheet (Change.Raise at to) }
        ensures marks { KeepsMarks self.old.marks self.new.marks }
        ensures ticks { steps.new ≡ steps.old + 1 }
    {
        let cell = self.span_cell(at);
        self.put(cell, number_of_span(to), steps);
    }

    /// Lowers a hi.
    fn lower<L: Ledger>(&mut self, at: Cand, to: u64, steps: &mut Steps<L>)
        requires { IsSpanOf self.old.sheet at }
        ensures frame { self.new.frame ≡ self.old.frame }
        ensures sheet { self.new.sheet ≡ changed self.old.sheet (Change.Lower at (Span.At to)) }
        ensures marks { KeepsMarks self.old.marks self.new.marks }
        ensures ticks { steps.new ≡ steps.old + 1 }
    {
        let cell = self.span_cell(at) + 1;
        self.put(cell, to, steps);
    }

    /// Where it stands whether an order stands.
    fn order_cell(&self, x: u32, y: u32) -> usize
        requires { IsPlaced self.now.sheet x y }
        ensures cell { result ≡ cell_of self.now.frame (order x y) }
        ensures there { IsThere self.now.frame (order x y) }
    {
        self.layout.order_cell(x, y)
    }

    /// Posts an order.
    fn post<L: Ledger>(&mut self, x: u32, y: u32, steps: &mut Steps<L>)
        requires there { IsPlaced self.old.sheet x y }
        requires fresh { before self.old.sheet x y ≡ false }
        ensures frame { self.new.frame ≡ self.old.frame }
        ensures sheet { self.new.sheet ≡ changed self.old.sheet (Change.Post x y) }
        ensures marks { KeepsMarks self.old.marks self.new.marks }
        ensures ticks { steps.new ≡ steps.old + 1 }
    {
        let cell = self.order_cell(x, y);
        self.put(cell, 1, steps);
    }

    /// Whether the first token is before the second.
    pub fn before(&self, x: u32, y: u32) -> bool
        requires { IsPlaced self.now.sheet x y }
        ensures { result ≡ before self.now.sheet x y }
    {
        let cell = self.layout.order_cell(x, y);
        self.trail.get(cell) == 1
    }

    /// The sheet of the mark comes back: it and all newer marks are gone.
    pub fn undo_to<L: Ledger>(&mut self, mark: usize, steps: &mut Steps<L>)
        requires { mark < length self.old.marks }
        ensures back { IsBackAt mark self.old self.new }
        ensures frame { (t : TaskShape) → IsFrameOf t self.old.frame → IsFrameOf t self.new.frame }
        ensures ticks { steps.new + written_of self.new.marks ≡ steps.old + written_of self.old.marks }
    {
        self.trail.undo_to(mark, steps);
        let count = self.layout.out_cells();
        let number = self.trail.get(count);
        let tokens = number as usize;
        let end = self.layout.end_at(tokens, self.end);
        self.layout.truncate(tokens);
        self.end = end;
    }

    /// Where it stands whether a candidate is in a list.
    fn cand_cell(&self, x: u32, p: u32, c: Cand) -> usize
        requires token { x < length self.now.sheet.tokens }
        requires listed { has c (cands self.now.sheet x p) ≡ true }
        ensures there { IsCandCell self.now.frame x p c result }
    {
        let place = place_of(self.layout.needs(x), p);
        match c {
            Cand::Tok(y) => self.layout.token_cand_cell(x, place, y),
            Cand::Out(a) => self.layout.out_cand_cell(x, place, a),
        }
    }

    /// Takes a candidate from a list.
    pub(crate) fn take<L: Ledger>(&mut self, x: u32, p: u32, c: Cand, steps: &mut Steps<L>)
        requires token { x < length self.old.sheet.tokens }
        requires listed { has c (cands self.old.sheet x p) ≡ true }
        ensures frame { self.new.frame ≡ self.old.frame }
        ensures sheet { self.new.sheet ≡ changed self.old.sheet (Change.Take x p c) }
        ensures marks { KeepsMarks self.old.marks self.new.marks }
        ensures ticks { steps.new ≡ steps.old + 1 }
    {
        let cell = self.cand_cell(x, p, c);
        self.put(cell, 0, steps);
    }

    /// Makes a change.
    pub fn make<L: Ledger>(&mut self, change: Change, steps: &mut Steps<L>)
        requires { CanMake self.old.sheet change }
        ensures frame { self.new.frame ≡ self.old.frame }
        ensures sheet { self.new.sheet ≡ changed self.old.sheet change }
        ensures marks { KeepsMarks self.old.marks self.new.marks }
        ensures ticks { steps.new ≤ steps.old + 1 }
    {
        match change {
            Change::Raise { at, to } => self.raise(at, to, steps),
            Change::Lower { at, to } => match to {
                Span::At(moment) => self.lower(at, moment, steps),
                Span::Never => {}
            },
            Change::Take { tok, pre, cand } => self.take(tok, pre, cand, steps),
            Change::Post { first, second } => self.post(first, second, steps),
        }
    }

    /// The decision that the first token comes before the second.
    pub fn decide_before<L: Ledger>(&mut self, x: u32, y: u32, steps: &mut Steps<L>)
        requires { IsPlaced self.old.sheet x y }
        ensures frame { self.new.frame ≡ self.old.frame }
        ensures sheet { self.new.sheet ≡ with_posted self.old.sheet x y }
        ensures marks { KeepsMarks self.old.marks self.new.marks }
        ensures ticks { steps.new ≤ steps.old + 1 }
    {
        if !self.before(x, y) {
            self.post(x, y, steps);
        }
    }

    /// A token more of this kind, whose cells hold these numbers. No order of it is posted yet.
    pub fn grow<L: Ledger>(&mut self, kind: Kind, numbers: &[u64], steps: &mut Steps<L>)
        requires size { length numbers.now + cells_in self.old.frame ≡ cells_in (extended self.old.frame (kind ∷ [])) }
        requires fits { cells_in (extended self.old.frame (kind ∷ [])) < 2 ^ 64 }
        requires cell_room { length numbers.now ≤ self.old.cell_room }
        requires token_room { 0 < self.old.token_room }
        requires need_room { length (needs_by self.old.frame kind) ≤ self.old.need_room }
        ensures frame { self.new.frame ≡ extended self.old.frame (kind ∷ []) }
        ensures sheet { (t : TaskShape) (lo hi : ℕ) → IsFrameOf t self.old.frame → numbers.now ≡ block t self.old.frame self.old.sheet kind lo hi → self.new.sheet ≡ grown t self.old.sheet kind lo hi }
        ensures marks { KeepsMarks self.old.marks self.new.marks }
    {
        let count = self.layout.out_cells();
        let tokens = self.layout.tokens() as u64 + 1;
        self.trail.write(count, tokens, steps);
        append_all(&mut self.trail, numbers);
        self.layout.push(kind, self.end);
        self.end += numbers.len();
    }
}
