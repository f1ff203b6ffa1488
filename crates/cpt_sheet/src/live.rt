//! Whether a sheet is dead.

ghost use Rattle.std.specs.Prelude.{◌≡◌, ◌≢◌, ◌↔◌, [], IsTrue, MatchBool, All, Contains};
ghost use Rattle.cpt_sheet.specs.Live.{IsOpen, IsShut, IsDeadToken, IsLiveToken, IsDead, IsLive, is_open};

use crate::data::{Interval, Need, Sheet, Token};
use cpt_tables::exceeds;
use cpt_task::Span;

/// Whether the interval has no moment.
pub fn is_shut(span: Interval) -> bool
    ensures { MatchBool result (IsShut span) (IsOpen span) }
{
    exceeds(span.lo, Span::At(span.hi))
}

/// Whether the interval has a moment.
pub fn is_open(span: Interval) -> bool
    ensures { result ≡ is_open span }
{
    match span.lo {
        Span::At(m) => m <= span.hi,
        Span::Never => false,
    }
}

fn is_without_candidate(need: &Need) -> bool
    ensures { MatchBool result (need.now.cands ≡ []) (need.now.cands ≢ []) }
{
    need.cands.as_slice().is_empty()
}

fn lacks_candidates(needs: &[Need]) -> bool
    ensures { MatchBool result ((n : Need) × Contains needs.now n × (n.cands ≡ [])) (All (λ n. n.cands ≢ []) needs.now) }
{
    needs.iter().any(|n| is_without_candidate(n))
}

fn is_dead_token(token: &Token) -> bool
    ensures { MatchBool result (IsDeadToken token.now) (IsLiveToken token.now) }
{
    is_shut(token.span) || lacks_candidates(token.lists.as_slice())
}

/// Whether some token's interval has no moment, or some candidate list is empty.
pub fn is_dead(sheet: &Sheet) -> bool
    ensures { MatchBool result (IsDead sheet.now) (IsLive sheet.now) }
{
    sheet.tokens.as_slice().iter().any(|t| is_dead_token(t))
}
