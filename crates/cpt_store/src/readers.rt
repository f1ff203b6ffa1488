//! What rules read of a store over a task and its tables.

ghost use Rattle.std.specs.Prelude.{◌≡◌, ◌<◌, ◌^◌, ℕ, length, IsTrue, ◌↔◌, MatchBool};
ghost use Rattle.cpt_tables.specs.Spans.{◌≤ˢ◌, IsBelow};
ghost use Rattle.cpt_sheet.specs.Formed.{IsFormed, IsPlaced};
ghost use Rattle.cpt_sheet.specs.Gaps.{FitsTask, arrival, back, deadline, gap, ordered, CanPrecede, DeleteEachOther, Exclude, IsImpossibleBeside, IsStuck};
ghost use Rattle.cpt_sheet.specs.Live.{IsLive};
ghost use Rattle.cpt_sheet.specs.Roles.{Clash, Deletes};
ghost use Rattle.cpt_sheet.specs.View.{kind_of, lo, span_of};
ghost use Rattle.cpt_calculus.specs.Decisions.{Fits};
ghost use Rattle.cpt_steps.specs.Tight.{ArrivalsFit};
ghost use Rattle.cpt_index.specs.Lists.{IsNeed, Lists};
ghost use Rattle.cpt_store.specs.Stores.{IsLent};

use crate::store::{Ctx, Store};
use cpt_sheet::{Cand, Decision, Interval, clash, deletes, gap, is_same, needs_of};
use cpt_tables::{add_spans, exceeds};
use cpt_task::Span;

fn back_by(moment: u64, gap: Span) -> u64
    ensures { result ≡ back moment gap }
{
    match gap {
        Span::At(n) => moment.saturating_sub(n),
        Span::Never => 0,
    }
}

fn is_late(arrival: Span, span: Interval) -> bool
    ensures { MatchBool result (arrival ≤ˢ Span.At span.hi → ⊥) (arrival ≤ˢ Span.At span.hi) }
{
    exceeds(arrival, Span::At(span.hi))
}

impl Store {
    /// The first moment at which the second may begin, where the first comes before it.
    #[tactic(auto, using(cpt_sheet::proofs::FormedLemmas::lo_below_more, cpt_sheet::proofs::FormedLemmas::gap_below_more))]
    pub fn arrives(&self, ctx: &Ctx, c: Cand, d: Cand) -> Span
        requires { IsLent ctx.now.task.now ctx.now.tables.now self.now }
        ensures value { result ≡ arrival ctx.now.task.now ctx.now.tables.now self.now.sheet c d }
        ensures fit { IsLive self.now.sheet → ArrivalsFit ctx.now.task.now ctx.now.tables.now self.now.sheet }
    {
        let _ = ctx.task.actions();
        let apart = gap(ctx.task, ctx.tables, self.kind_at(c), self.kind_at(d));
        add_spans(self.span_at(c).lo, apart)
    }

    /// The last moment at which the first may begin, where it comes before the second.
    pub fn must_begin_by(&self, ctx: &Ctx, c: Cand, d: Cand) -> Span
        requires { IsLent ctx.now.task.now ctx.now.tables.now self.now }
        ensures { result ≡ deadline ctx.now.task.now ctx.now.tables.now self.now.sheet c d }
    {
        let apart = gap(ctx.task, ctx.tables, self.kind_at(c), self.kind_at(d));
        Span::At(back_by(self.span_at(d).hi, apart))
    }

    fn is_ordered(&self, c: Cand, d: Cand) -> bool
        ensures { result ≡ ordered self.now.sheet c d }
    {
        match (c, d) {
            (Cand::Tok(x), Cand::Tok(y)) => self.before(x, y),
            _ => false,
        }
    }

    /// Whether the first can precede the second.
    pub fn can_precede(&self, ctx: &Ctx, c: Cand, d: Cand) -> bool
        requires { IsLent ctx.now.task.now ctx.now.tables.now self.now }
        ensures { MatchBool result (CanPrecede ctx.now.task.now ctx.now.tables.now self.now.sheet c d) (CanPrecede ctx.now.task.now ctx.now.tables.now self.now.sheet c d → ⊥) }
    {
        !is_late(self.arrives(ctx, c, d), self.span_at(d)) && !self.is_ordered(d, c)
    }

    /// Whether the two stand for actions of the task that interfere.
    pub fn clash(&self, ctx: &Ctx, c: Cand, d: Cand) -> bool
        ensures { MatchBool result (Clash ctx.now.task.now (kind_of self.now.sheet c) (kind_of self.now.sheet d)) (Clash ctx.now.task.now (kind_of self.now.sheet c) (kind_of self.now.sheet d) → ⊥) }
    {
        clash(ctx.task, self.kind_at(c), self.kind_at(d))
    }

    fn is_stuck(&self, ctx: &Ctx, c: Cand, d: Cand) -> bool
        requires { IsLent ctx.now.task.now ctx.now.tables.now self.now }
        ensures { MatchBool result (IsStuck ctx.now.task.now ctx.now.tables.now self.now.sheet c d) (IsStuck ctx.now.task.now ctx.now.tables.now self.now.sheet c d → ⊥) }
    {
        self.clash(ctx, c, d) && !self.can_precede(ctx, c, d) && !self.can_precede(ctx, d, c)
    }

    fn delete_each_other(&self, ctx: &Ctx, p: u32, q: u32, c: Cand, d: Cand) -> bool
        ensures { MatchBool result (DeleteEachOther ctx.now.task.now self.now.sheet p q c d) (DeleteEachOther ctx.now.task.now self.now.sheet p q c d → ⊥) }
    {
        deletes(ctx.task, self.kind_at(c), q) && deletes(ctx.task, self.kind_at(d), p)
    }

    fn exclude(&self, ctx: &Ctx, p: u32, q: u32, c: Cand, d: Cand) -> bool
        requires { IsLent ctx.now.task.now ctx.now.tables.now self.now }
        ensures { MatchBool result (Exclude ctx.now.task.now ctx.now.tables.now self.now.sheet p q c d) (Exclude ctx.now.task.now ctx.now.tables.now self.now.sheet p q c d → ⊥) }
    {
        self.is_stuck(ctx, c, d) || self.delete_each_other(ctx, p, q, c, d)
    }

    /// Whether `d`, as the one that adds `q`, is impossible beside `c`, as the one that adds `p`.
    pub fn is_impossible_beside(&self, ctx: &Ctx, p: u32, q: u32, c: Cand, d: Cand) -> bool
        requires { IsLent ctx.now.task.now ctx.now.tables.now self.now }
        ensures { MatchBool result (IsImpossibleBeside ctx.now.task.now ctx.now.tables.now self.now.sheet p q c d) (IsImpossibleBeside ctx.now.task.now ctx.now.tables.now self.now.sheet p q c d → ⊥) }
    {
        !is_same(d, c) && self.exclude(ctx, p, q, c, d)
    }

    /// The atoms that a token needs.
    pub fn needs<'a>(&self, ctx: &Ctx<'a>, tok: u32) -> &'a [u32]
        requires lent { IsLent ctx.now.task.now ctx.now.tables.now self.now }
        requires there { tok < length self.now.sheet.tokens }
        ensures { Lists (IsNeed self.now.sheet tok) result.now }
    {
        needs_of(ctx.task, self.kind(tok))
    }

    pub(crate) fn is_placed(&self, x: u32, y: u32) -> bool
        ensures { MatchBool result (IsPlaced self.now.sheet x y) (IsPlaced self.now.sheet x y → ⊥) }
    {
        let count = self.tokens();
        x < count && y < count && x != y && !(x == 1 && y == 0)
    }

    /// Whether the decision fits: its candidate stands in the named list, or it names two different tokens and not the
    /// end before the start.
    pub fn fits(&self, ctx: &Ctx, decision: &Decision) -> bool
        ensures { IsTrue result ↔ Fits self.now.sheet decision.now }
    {
        let _ = ctx;
        match *decision {
            Decision::Join { tok, pre, by } => self.holds(tok, pre, Cand::Tok(by)),
            Decision::Bring { tok, pre, act } => self.holds(tok, pre, Cand::Out(act)),
            Decision::Before { first, second } => self.is_placed(first, second),
        }
    }
}
