//! Moments and Never as numbers.

ghost use Rattle.std.specs.Prelude.{◌≡◌};
ghost use Rattle.cpt_layout.specs.Sheets.{span_from, number_of};

use cpt_task::Span;

/// The span that a number stands for: the greatest is Never.
pub(crate) fn span_of_number(number: u64) -> Span
    ensures { result ≡ span_from number }
{
    if number == u64::MAX {
        Span::Never
    } else {
        Span::At(number)
    }
}

/// The number that stands for a span.
pub(crate) fn number_of_span(span: Span) -> u64
    ensures { result ≡ number_of span }
{
    match span {
        Span::At(moment) => moment,
        Span::Never => u64::MAX,
    }
}
