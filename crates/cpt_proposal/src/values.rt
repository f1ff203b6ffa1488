//! Which of two spans is earlier, and what is deleted.

ghost use Rattle.std.specs.Prelude.{◌≡◌, MatchBool};
ghost use Rattle.cpt_tables.specs.Spans.{◌<ˢ◌};
ghost use Rattle.cpt_sheet.specs.Roles.{deletes_of};

use cpt_sheet::Kind;
use cpt_task::{Span, Task};

/// Whether the first span is earlier than the second.
pub fn is_sooner(a: Span, b: Span) -> bool
    ensures { MatchBool result (a <ˢ b) (a <ˢ b → ⊥) }
{
    match (a, b) {
        (Span::At(x), Span::At(y)) => x < y,
        (Span::At(_), Span::Never) => true,
        (Span::Never, Span::At(_)) => false,
        (Span::Never, Span::Never) => false,
    }
}

/// The atoms that it deletes; none for an action that is not there.
pub fn deletes_of(task: &Task, kind: Kind) -> &[u32]
    ensures { result.now ≡ deletes_of task.now kind }
{
    match kind {
        Kind::Start => &[],
        Kind::End => &[],
        Kind::Act(a) => match task.actions().get(a as usize) {
            Some(action) => action.dele.as_slice(),
            None => &[],
        },
    }
}
