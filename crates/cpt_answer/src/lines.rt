//! The lines of endings.

ghost use Rattle.std.specs.Prelude.{◌≡◌, ◌++◌, codes, IfOk, string_bytes};
ghost use Rattle.std.specs.Fmt.{decimal};
ghost use Rattle.cpt_answer.specs.Endings.{byte_fault_word, cause_answer, reply_answer};
ghost use Rattle.cpt_answer.specs.Lines.{fault_line, invalid_line, limit_name, of_line};

use crate::ending::{ByteFault, Cause, Reply};
use cpt_pddl::Feature;
use cpt_task::Limit;
use std::alloc::{AllocError, Global};

/// The word for a limit.
fn word_of(limit: Limit) -> &'static str
    ensures { result.now ≡ limit_name limit }
{
    match limit {
        Limit::File => "file",
        Limit::Certificate => "certificate",
        Limit::Nesting => "nesting",
        Limit::Objects => "objects",
        Limit::Parameters => "parameters",
        Limit::LongList => "list",
        Limit::Instances => "instances",
        Limit::Atoms => "atoms",
        Limit::Actions => "actions",
        Limit::Start => "start",
    }
}

/// The word for a form that is not taken.
fn word_of_feature(feature: Feature) -> &'static str
    ensures { result.now ≡ byte_fault_word (ByteFault.Feature feature) }
{
    match feature {
        Feature::Either => "feature either",
        Feature::Section => "feature section",
        Feature::Conditional => "feature conditional",
        Feature::Quantifier => "feature quantifier",
        Feature::Disjunction => "feature disjunction",
        Feature::Preference => "feature preference",
        Feature::Negative => "feature negative",
        Feature::Numeric => "feature numeric",
        Feature::Timed => "feature timed",
        Feature::GoalEquality => "feature goal-equality",
        Feature::Duration => "feature duration",
        Feature::Metric => "feature metric",
    }
}

/// The word for a fault at a byte.
fn word_of_fault(fault: ByteFault) -> &'static str
    ensures { result.now ≡ byte_fault_word fault }
{
    match fault {
        ByteFault::BadByte => "bad-byte",
        ByteFault::Unopened => "unopened",
        ByteFault::Unclosed => "unclosed",
        ByteFault::Shape => "shape",
        ByteFault::BadName => "name",
        ByteFault::Twice => "twice",
        ByteFault::BadType => "type",
        ByteFault::Arity => "arity",
        ByteFault::Window => "window",
        ByteFault::Duration => "duration",
        ByteFault::OtherDomain => "other-domain",
        ByteFault::Feature(feature) => word_of_feature(feature),
    }
}

fn must_last_line(alloc: Global, line: u32, dur: u32) -> Result<String, AllocError>
    ensures { IfOk result (λ text. string_bytes text ≡ invalid_line (of_line line (codes " must last " ++ decimal dur))) }
{
    format!(in alloc; "invalid: line {line} must last {dur}\n")
}

fn unreachable_line(alloc: Global, line: u32) -> Result<String, AllocError>
    ensures { IfOk result (λ text. string_bytes text ≡ invalid_line (of_line line (codes " is unreachable"))) }
{
    format!(in alloc; "invalid: line {line} is unreachable\n")
}

/// The line of a fault at a byte of the text of this name, or at a line of it.
fn place_line(alloc: Global, text: &str, at: u32, word: &str) -> Result<String, AllocError>
    ensures { IfOk result (λ line. string_bytes line ≡ fault_line (text.now ++ decimal at ++ codes ": " ++ word.now)) }
{
    format!(in alloc; "fault: {text}{at}: {word}\n")
}

fn limit_line(alloc: Global, word: &str) -> Result<String, AllocError>
    ensures { IfOk result (λ text. string_bytes text ≡ fault_line (codes "limit " ++ word.now)) }
{
    format!(in alloc; "fault: limit {word}\n")
}

/// The status and the line of a cause.
pub fn reply_at(alloc: Global, cause: Cause) -> Result<Reply, AllocError>
    ensures { IfOk result (λ reply. reply_answer reply ≡ cause_answer cause) }
{
    let (status, line) = match cause {
        Cause::MustLast(line, dur) => (1, must_last_line(alloc, line, dur)?),
        Cause::IsUnreachable(line) => (1, unreachable_line(alloc, line)?),
        Cause::DomainByte(at, fault) => {
            (
                4,
                place_line(alloc, "domain byte ", at, word_of_fault(fault))?,
            )
        }
        Cause::ProblemByte(at, fault) => {
            (
                4,
                place_line(alloc, "problem byte ", at, word_of_fault(fault))?,
            )
        }
        Cause::TaskLine(line) => (4, place_line(alloc, "task line ", line, "line")?),
        Cause::PlanLine(line) => (4, place_line(alloc, "plan line ", line, "line")?),
        Cause::PlanUnknown(line) => (4, place_line(alloc, "plan line ", line, "unknown")?),
        Cause::Passed(limit) => (6, limit_line(alloc, word_of(limit))?),
    };
    Ok(Reply {
        status,
        text: line.into_bytes(),
    })
}
