//! How sheets are read. What is not there is read as a token without preconditions, an interval without a moment
//! or an empty list.

ghost use Rattle.std.specs.Prelude.{◌≡◌, ◌==◌, MatchBool, ℕ};
ghost use Rattle.std.specs.List.{find};
ghost use Rattle.std.specs.Option.{option_copied};
ghost use Rattle.cpt_sheet.specs.Live.{IsOpen, IsShut};
ghost use Rattle.cpt_sheet.specs.View.{kind_of, cands, has_need, before, has_order, has, span_of, same, list_for, pair_lt, token_at};
ghost use Rattle.cpt_sheet.specs.Gaps.{ordered};

use crate::data::{Cand, Interval, Kind, Need, Sheet};
use cpt_task::Span;

/// The interval of a token or of an outside action.
pub fn span(sheet: &Sheet, c: Cand) -> Interval
    ensures { result ≡ span_of sheet.now c }
{
    let found = match c {
        Cand::Tok(x) => sheet.tokens.as_slice().get(x as usize).map(|t| t.span),
        Cand::Out(a) => sheet.outs.as_slice().get(a as usize).copied(),
    };
    found.unwrap_or(Interval {
        lo: Span::Never,
        hi: 0,
    })
}

/// What a token or an outside action stands for.
pub fn kind(sheet: &Sheet, c: Cand) -> Kind
    ensures { result ≡ kind_of sheet.now c }
{
    match c {
        Cand::Tok(x) => match sheet.tokens.as_slice().get(x as usize) {
            Some(token) => token.kind,
            None => Kind::Start,
        },
        Cand::Out(a) => Kind::Act(a),
    }
}

/// Whether the order is among these.
pub fn is_posted(orders: &[(u32, u32)], first: u32, second: u32) -> bool
    ensures { result ≡ has_order first second orders.now }
{
    orders.iter().any(|o| o.0 == first && o.1 == second)
}

/// Whether the first token ends before the second begins.
pub fn stands(sheet: &Sheet, first: u32, second: u32) -> bool
    ensures { result ≡ before sheet.now first second }
{
    is_posted(sheet.orders.as_slice(), first, second)
}

/// Whether both are tokens, and the first ends before the second begins.
pub fn is_ordered(sheet: &Sheet, c: Cand, d: Cand) -> bool
    ensures { result ≡ ordered sheet.now c d }
{
    match (c, d) {
        (Cand::Tok(x), Cand::Tok(y)) => stands(sheet, x, y),
        _ => false,
    }
}

/// Whether the two are one token or one outside action.
pub fn is_same(c: Cand, d: Cand) -> bool
    ensures { result ≡ same c d }
{
    match (c, d) {
        (Cand::Tok(x), Cand::Tok(y)) => x == y,
        (Cand::Out(a), Cand::Out(b)) => a == b,
        _ => false,
    }
}

fn need_in(needs: &[Need], atom: u32) -> Option<&Need>
    ensures { option_copied result ≡ find (λ n. n.atom == atom) needs.now }
{
    needs.iter().find(|n| n.atom == atom)
}

fn list_in(needs: &[Need], atom: u32) -> &[Cand]
    ensures { result.now ≡ list_for atom needs.now }
{
    match need_in(needs, atom) {
        Some(need) => need.cands.as_slice(),
        None => &[],
    }
}

/// The preconditions of a token with their candidates; none past the last token.
pub fn lists(sheet: &Sheet, tok: u32) -> &[Need]
    ensures { result.now ≡ (token_at sheet.now tok).lists }
{
    match sheet.tokens.as_slice().get(tok as usize) {
        Some(token) => token.lists.as_slice(),
        None => &[],
    }
}

/// The candidates of a token for an atom; none where it does not need the atom.
pub fn list(sheet: &Sheet, tok: u32, pre: u32) -> &[Cand]
    ensures { result.now ≡ cands sheet.now tok pre }
{
    list_in(lists(sheet, tok), pre)
}

/// Whether the token needs the atom.
pub fn needs(sheet: &Sheet, tok: u32, pre: u32) -> bool
    ensures { result ≡ has_need sheet.now tok pre }
{
    lists(sheet, tok).iter().any(|n| n.atom == pre)
}

/// Whether the candidate stands in the list.
pub fn is_listed(list: &[Cand], c: Cand) -> bool
    ensures { result ≡ has c list.now }
{
    list.iter().any(|d| is_same(*d, c))
}

/// Whether one order comes before another in the list of orders.
pub fn is_before(first: u32, second: u32, o: (u32, u32)) -> bool
    ensures { result ≡ pair_lt first second o.0 o.1 }
{
    first < o.0 || (first == o.0 && second < o.1)
}
