//! Order and sums of spans.

ghost use Rattle.std.specs.Prelude.{◌≡◌, ◌<◌, ◌^◌, MatchBool};
ghost use Rattle.cpt_tables.specs.Spans.{◌≤ˢ◌, ◌<ˢ◌, ◌+ˢ◌, span_max, span_min, IsBelow};

use cpt_task::Span;

/// The greater of two spans.
pub fn greater_span(a: Span, b: Span) -> Span
    ensures { result ≡ span_max a b }
{
    match (a, b) {
        (Span::At(x), Span::At(y)) => Span::At(x.max(y)),
        _ => Span::Never,
    }
}

/// The lesser of two spans.
pub fn lesser_span(a: Span, b: Span) -> Span
    ensures { result ≡ span_min a b }
{
    match (a, b) {
        (Span::At(x), Span::At(y)) => Span::At(x.min(y)),
        (Span::At(x), Span::Never) => Span::At(x),
        (Span::Never, _) => b,
    }
}

/// The sum of two spans.
pub fn add_spans(a: Span, b: Span) -> Span
    requires first { IsBelow (2 ^ 63) a }
    requires second { IsBelow (2 ^ 63) b }
    ensures { result ≡ a +ˢ b }
{
    match (a, b) {
        (Span::At(x), Span::At(y)) => Span::At(x + y),
        _ => Span::Never,
    }
}

/// Whether the first span is greater than the second.
pub fn exceeds(a: Span, b: Span) -> bool
    ensures { MatchBool result (b <ˢ a) (a ≤ˢ b) }
{
    match (a, b) {
        (Span::At(x), Span::At(y)) => x > y,
        (Span::At(_), Span::Never) => false,
        (Span::Never, Span::At(_)) => true,
        (Span::Never, Span::Never) => false,
    }
}
