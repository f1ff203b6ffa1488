//! The rows of tables, rendered as values or as runs.

ghost use Rattle.std.specs.Prelude.{◌≡◌, ◌+◌, ◌≤◌, ◌++◌, ◌∷◌, ◌*◌, List, length, map};
ghost use Rattle.cpt_cert_form.specs.Forms.{run_word};
ghost use Rattle.cpt_cert_form.specs.Text.{once, runs_of, row_runs, same_span};
ghost use Rattle.cpt_cert_print.specs.Items.{spaced, runs_text, row_values, IsThere};

use crate::items::{Row, row_len, row_value};
use crate::rendering::{Line, push_run, push_span};
use cpt_cert_form::{Run, Version};
use cpt_task::Span;

fn is_same_span(a: Span, b: Span) -> bool
    ensures { result ≡ same_span a b }
{
    match (a, b) {
        (Span::At(m), Span::At(n)) => m == n,
        (Span::Never, Span::Never) => true,
        _ => false,
    }
}

/// Each value alone.
fn push_values(line: &mut Line, row: Row)
    requires there { IsThere row }
    requires room { length line.old.bytes ≤ 8 }
    ensures text { line.new.bytes ≡ line.old.bytes ++ spaced (map run_word (map once (row_values row.entry))) }
    ensures short { length line.new.bytes ≤ 43500 }
{
    for i in 0..row_len(row) {
        push_span(line, row_value(row, i));
    }
}

/// A value behind a run that is not written yet: it makes the run longer, or the run is written and it begins the next.
#[tactic(auto, using(crate::proofs::Runs::same_run, crate::proofs::Runs::next_run))]
fn push_value(line: &mut Line, run: Run, value: Span) -> Run
    requires some { 1 ≤ run.count }
    requires room { length line.old.bytes + 21 * run.count ≤ 43500 }
    ensures text { (vs : List Span) → line.new.bytes ++ runs_text result vs ≡ line.old.bytes ++ runs_text run (value ∷ vs) }
    ensures room { length line.new.bytes + 21 * result.count ≤ length line.old.bytes + 21 * run.count + 21 }
    ensures some { 1 ≤ result.count }
{
    if is_same_span(run.value, value) {
        return Run {
            value: run.value,
            count: run.count + 1,
        };
    }
    push_run(line, run);
    Run { value, count: 1 }
}

/// The values as runs, each as long as it can be.
fn push_runs(line: &mut Line, row: Row)
    requires there { IsThere row }
    requires room { length line.old.bytes ≤ 8 }
    ensures text { line.new.bytes ≡ line.old.bytes ++ spaced (map run_word (runs_of (row_values row.entry))) }
    ensures short { length line.new.bytes ≤ 43500 }
{
    let count = row_len(row);
    if count == 0 {
        return;
    }
    let mut run = Run {
        value: row_value(row, 0),
        count: 1,
    };
    for i in 1..count {
        run = push_value(line, run, row_value(row, i));
    }
    push_run(line, run);
}

/// The row as the version writes it.
pub(crate) fn push_row(line: &mut Line, version: Version, row: Row)
    requires there { IsThere row }
    requires room { length line.old.bytes ≤ 8 }
    ensures text { line.new.bytes ≡ line.old.bytes ++ spaced (map run_word (row_runs version (row_values row.entry))) }
    ensures short { length line.new.bytes ≤ 43500 }
{
    match version {
        Version::One => push_values(line, row),
        Version::Two => push_runs(line, row),
    }
}
