//! Lowering by rules.

ghost use Rattle.std.specs.Prelude.{◌≡◌, ◌<◌, ℕ, suc, length, All, MatchBool};
ghost use Rattle.cpt_task.specs.Interference.{Interferes};
ghost use Rattle.cpt_task.specs.declared.task.Action.{Action};
ghost use Rattle.cpt_tables.specs.Spans.{◌≤ˢ◌, IsFinite};
ghost use Rattle.cpt_tables.specs.Shapes.{PairShape, set_span_of};
ghost use Rattle.cpt_tables.specs.Admissible.{Leaves, limit_by_two};
ghost use Rattle.cpt_tables.specs.Weights.{value_at, IsNextTo};
ghost use Rattle.cpt_h2.specs.Board.{IsGood, IsWithin, Drops};
ghost use Rattle.cpt_h2.specs.Rules.{Rule, IsUpTo, IsRuleAt, action_of};
ghost use Rattle.cpt_h2.specs.Rules.Rule.{one, beside, two};
ghost use Rattle.cpt_h2.specs.Rounds.{MeetsEach, Settles, Works, Looks, LooksUpTo};
ghost use Rattle.cpt_h2.specs.Rows.{IsRowOf, IsAtMost, IsRead, IsFrom, IsSpanOver, AreSpansOver, AreSpansUnder, IsRoom};

use crate::board::Board;
use crate::limits::{least_beside, limit_beside, limit_by_one, limit_of_parts, span_of};
use crate::marks::Marks;
use crate::rows::{farthest, fill, is_below, value_of};
use cpt_tables::exceeds;
use cpt_task::{Action, Span, interfere};

/// Whether the action neither adds nor deletes the atom.
fn leaves(action: &Action, q: u32) -> bool
    ensures { MatchBool result (Leaves action.now q) (Leaves action.now q → ⊥) }
{
    !action.add.as_slice().contains(&q) && !action.dele.as_slice().contains(&q)
}

/// Whether the span is not `Never`.
fn is_finite(span: Span) -> bool
    ensures { MatchBool result (IsFinite span) (span ≡ Span.Never) }
{
    match span {
        Span::At(_) => true,
        Span::Never => false,
    }
}

/// Lowers the pairs that the action adds.
fn look_by_itself(board: &mut Board, action: &Action)
    requires good { IsGood board.old }
    requires action { IsWithin board.old.pairs.atoms action.now }
    ensures { Looks (one action.now) board.old board.new }
{
    let limit = limit_by_one(board, action);
    board.lower_all(action.add.as_slice(), action.add.as_slice(), limit);
}

/// Lowers the pairs of what the action adds with the atom, where it stays.
fn look_beside(board: &mut Board, action: &Action, q: u32)
    requires good { IsGood board.old }
    requires action { IsWithin board.old.pairs.atoms action.now }
    requires atom { q < board.old.pairs.atoms }
    ensures { Looks (beside action.now q) board.old board.new }
{
    if leaves(action, q) {
        let limit = limit_beside(board, action, q);
        board.lower_all(action.add.as_slice(), &[q], limit);
    }
}

/// Lowers the pairs of what two actions add that do not interfere, to a limit that is no less than theirs.
fn look_at_two(board: &mut Board, first: &Action, second: &Action, limit: Span)
    requires good { IsGood board.old }
    requires first { IsWithin board.old.pairs.atoms first.now }
    requires second { IsWithin board.old.pairs.atoms second.now }
    requires next { IsNextTo board.old.pairs.values limit }
    requires enough { limit_by_two board.old.pairs first.now second.now ≤ˢ limit }
    ensures { LooksUpTo (two first.now second.now) limit board.old board.new }
{
    if interfere(first, second) {
        return;
    }
    board.lower_all(first.add.as_slice(), second.add.as_slice(), limit);
}

/// Looks at the action by itself, unless none of its atoms has a mark.
fn apply_by_itself(board: &mut Board, looked: &Marks, action: &Action)
    requires good { IsGood board.old }
    requires action { IsWithin board.old.pairs.atoms action.now }
    ensures { Works (λ r. r ≡ one action.now) looked.now board.old board.new }
{
    if !looked.is_quiet(action.pre.as_slice()) {
        look_by_itself(board, action);
    }
}

/// Looks at the action beside the atom, unless none of their atoms has a mark.
fn apply_marked(board: &mut Board, looked: &Marks, action: &Action, q: u32)
    requires good { IsGood board.old }
    requires action { IsWithin board.old.pairs.atoms action.now }
    requires atom { q < board.old.pairs.atoms }
    ensures { Works (λ r. r ≡ beside action.now q) looked.now board.old board.new }
{
    if !looked.are_quiet(action.pre.as_slice(), &[q]) {
        look_beside(board, action, q);
    }
}

/// Looks at the action beside the atom, unless what was read of the action shows that its pairs are met.
fn apply_beside(
    board: &mut Board,
    looked: &Marks,
    action: &Action,
    own: Span,
    reach: &[Span],
    tops: &[Span],
    q: u32,
)
    requires good { IsGood board.old }
    requires action { IsWithin board.old.pairs.atoms action.now }
    requires read { IsRead board.old action.now own reach.now tops.now }
    requires atom { q < board.old.pairs.atoms }
    ensures drops { Drops (MeetsEach (λ r. r ≡ beside action.now q)) board.old board.new }
    ensures settled { (h : PairShape) → IsFrom h board.old.pairs action.now own reach.now → Settles (λ r. r ≡ beside action.now q) looked.now h board.new }
{
    let near = value_of(reach, q as usize);
    let least = least_beside(board, action, own, near);
    let top = value_of(tops, q as usize);
    if exceeds(top, least) {
        apply_marked(board, looked, action, q);
    }
}

/// Looks at the two actions, unless their pairs are met or none of their atoms has a mark; `other` is the span of the
/// second one's preconditions.
fn apply_two(
    board: &mut Board,
    looked: &Marks,
    first: &Action,
    own: Span,
    reach: &[Span],
    tops: &[Span],
    second: &Action,
    other: Span,
)
    requires good { IsGood board.old }
    requires first { IsWithin board.old.pairs.atoms first.now }
    requires second { IsWithin board.old.pairs.atoms second.now }
    requires read { IsRead board.old first.now own reach.now tops.now }
    requires other { IsSpanOver board.old second.now.pre other }
    ensures drops { Drops (MeetsEach (λ r. r ≡ two first.now second.now)) board.old board.new }
    ensures settled { (h : PairShape) → IsFrom h board.old.pairs first.now own reach.now → other ≤ˢ set_span_of h second.now.pre → Settles (λ r. r ≡ two first.now second.now) looked.now h board.new }
{
    let ps = first.pre.as_slice();
    let qs = second.pre.as_slice();
    if looked.are_quiet(ps, qs) {
        return;
    }
    let across = farthest(reach, qs);
    let limit = limit_of_parts(board, first, second, own, other, across);
    if is_below(tops, second.add.as_slice(), limit) {
        return;
    }
    look_at_two(board, first, second, limit);
}

/// Looks at the action beside each atom.
fn apply_atoms(
    board: &mut Board,
    looked: &Marks,
    action: &Action,
    own: Span,
    reach: &[Span],
    tops: &[Span],
)
    requires good { IsGood board.old }
    requires action { IsWithin board.old.pairs.atoms action.now }
    requires read { IsRead board.old action.now own reach.now tops.now }
    ensures drops { Drops (MeetsEach (IsUpTo (λ q r. r ≡ beside action.now q) board.old.pairs.atoms)) board.old board.new }
    ensures settled { (h : PairShape) → IsFrom h board.old.pairs action.now own reach.now → Settles (IsUpTo (λ q r. r ≡ beside action.now q) board.old.pairs.atoms) looked.now h board.new }
{
    for q in 0..board.pairs().atoms() {
        apply_beside(board, looked, action, own, reach, tops, q);
    }
}

/// The action of number `k`.
fn action_at(actions: &[Action], k: usize) -> &Action
    requires { k < length actions.now }
    ensures { result.now ≡ action_of actions.now k }
{
    &actions[k]
}

/// Looks at the action of number `k` with each action up to itself.
fn apply_actions(
    board: &mut Board,
    looked: &Marks,
    actions: &[Action],
    k: usize,
    spans: &[Span],
    reach: &[Span],
    tops: &[Span],
)
    requires good { IsGood board.old }
    requires actions { All (IsWithin board.old.pairs.atoms) actions.now }
    requires within { k < length actions.now }
    requires spans_size { length spans.now ≡ length actions.now }
    requires spans { AreSpansOver board.old actions.now spans.now (suc k) }
    requires read { IsRead board.old (action_of actions.now k) (value_at spans.now k) reach.now tops.now }
    ensures drops { Drops (MeetsEach (IsUpTo (λ j r. r ≡ two (action_of actions.now k) (action_of actions.now j)) (suc k))) board.old board.new }
    ensures settled { (h : PairShape) → IsFrom h board.old.pairs (action_of actions.now k) (value_at spans.now k) reach.now → AreSpansUnder h actions.now spans.now (suc k) → Settles (IsUpTo (λ j r. r ≡ two (action_of actions.now k) (action_of actions.now j)) (suc k)) looked.now h board.new }
{
    let first = action_at(actions, k);
    let own = value_of(spans, k);
    for j in 0..k + 1 {
        let second = action_at(actions, j);
        let other = value_of(spans, j);
        apply_two(board, looked, first, own, reach, tops, second, other);
    }
}

/// Reads the row of the action's preconditions, and that of what it adds.
fn read_action(board: &Board, action: &Action, reach: &mut [Span], tops: &mut [Span])
    requires action { IsWithin board.now.pairs.atoms action.now }
    requires reach { length reach.old ≡ board.now.pairs.atoms }
    requires tops { length tops.old ≡ board.now.pairs.atoms }
    ensures near { IsRowOf board.now.pairs action.now.pre reach.new }
    ensures top { IsRowOf board.now.pairs action.now.add tops.new }
{
    fill(reach, board.pairs(), action.pre.as_slice());
    fill(tops, board.pairs(), action.add.as_slice());
}

/// Looks at the rules of the action of number `k`, which can run.
fn apply_running(
    board: &mut Board,
    looked: &Marks,
    actions: &[Action],
    k: usize,
    spans: &[Span],
    reach: &mut [Span],
    tops: &mut [Span],
)
    requires good { IsGood board.old }
    requires actions { All (IsWithin board.old.pairs.atoms) actions.now }
    requires within { k < length actions.now }
    requires room { IsRoom (length actions.now) board.old.pairs.atoms spans.now reach.old tops.old }
    requires spans { AreSpansOver board.old actions.now spans.now (suc k) }
    ensures drops { Drops (MeetsEach (IsRuleAt actions.now board.old.pairs.atoms k)) board.old board.new }
    ensures settled { (h : PairShape) → IsAtMost board.old.pairs h → AreSpansUnder h actions.now spans.now (suc k) → Settles (IsRuleAt actions.now board.old.pairs.atoms k) looked.now h board.new }
    ensures room { IsRoom (length actions.now) board.new.pairs.atoms spans.now reach.new tops.new }
{
    let action = action_at(actions, k);
    let own = value_of(spans, k);
    apply_by_itself(board, looked, action);
    read_action(board, action, reach, tops);
    apply_atoms(board, looked, action, own, reach, tops);
    apply_actions(board, looked, actions, k, spans, reach, tops);
}

/// Looks at the rules of the action of number `k`, where it can run at all, and writes the span of its preconditions.
fn apply_action(
    board: &mut Board,
    looked: &Marks,
    actions: &[Action],
    k: usize,
    spans: &mut [Span],
    reach: &mut [Span],
    tops: &mut [Span],
)
    requires good { IsGood board.old }
    requires actions { All (IsWithin board.old.pairs.atoms) actions.now }
    requires within { k < length actions.now }
    requires room { IsRoom (length actions.now) board.old.pairs.atoms spans.old reach.old tops.old }
    requires spans { AreSpansOver board.old actions.now spans.old k }
    ensures drops { Drops (MeetsEach (IsRuleAt actions.now board.old.pairs.atoms k)) board.old board.new }
    ensures settled { (h : PairShape) → IsAtMost board.old.pairs h → AreSpansUnder h actions.now spans.old k → Settles (IsRuleAt actions.now board.old.pairs.atoms k) looked.now h board.new }
    ensures spans { AreSpansOver board.new actions.now spans.new (suc k) }
    ensures under { (h : PairShape) → IsAtMost board.old.pairs h → AreSpansUnder h actions.now spans.old k → AreSpansUnder h actions.now spans.new (suc k) }
    ensures room { IsRoom (length actions.now) board.new.pairs.atoms spans.new reach.new tops.new }
{
    let action = action_at(actions, k);
    let own = span_of(board, action.pre.as_slice());
    spans[k] = own;
    if is_finite(own) {
        apply_running(board, looked, actions, k, spans, reach, tops);
    }
}

/// Looks at the rules of each action once.
pub fn apply_all(
    board: &mut Board,
    looked: &Marks,
    actions: &[Action],
    spans: &mut [Span],
    reach: &mut [Span],
    tops: &mut [Span],
)
    requires good { IsGood board.old }
    requires actions { All (IsWithin board.old.pairs.atoms) actions.now }
    requires room { IsRoom (length actions.now) board.old.pairs.atoms spans.old reach.old tops.old }
    ensures works { Works (IsUpTo (IsRuleAt actions.now board.old.pairs.atoms) (length actions.now)) looked.now board.old board.new }
    ensures room { IsRoom (length actions.now) board.new.pairs.atoms spans.new reach.new tops.new }
{
    for k in 0..actions.len() {
        apply_action(board, looked, actions, k, spans, reach, tops);
    }
}
