//! What is said of a certificate.

ghost use Rattle.std.specs.Prelude.{◌≡◌, ◌≤◌, ◌++◌, codes, IfOk};
ghost use Rattle.std.specs.Fmt.{decimal};
ghost use Rattle.cpt_answer.specs.Lines.{line_of};
ghost use Rattle.cpt_check_files.specs.Rulings.{accepted_line, rejected_line, ruling_answer, ruling_line, ruling_status, version_line, why_word};
ghost use Rattle.cpt_answer.specs.Endings.{reply_answer};

use cpt_answer::Reply;
use cpt_cert::{Claim, Version};
use cpt_cert_accept::Why;
use cpt_check::{Judged, Ruling};
use std::alloc::{AllocError, Global};

/// The line that names the version, where it is known.
fn version_line(version: Option<Version>) -> &'static str
    ensures { result.now ≡ version_line version }
{
    match version {
        None => "",
        Some(Version::One) => "version 1\n",
        Some(Version::Two) => "version 2\n",
    }
}

/// The word for a reason.
fn why_word(why: Why) -> &'static str
    ensures { result.now ≡ why_word why }
{
    match why {
        Why::Grammar => "grammar",
        Why::Task => "task",
        Why::Plan => "plan",
        Why::Pair => "pair",
        Why::Dist => "dist",
        Why::Goal => "goal",
        Why::Bound => "bound",
        Why::Step => "step",
        Why::Close => "close",
        Why::Branch => "branch",
        Why::Child => "child",
        Why::Count => "count",
    }
}

fn optimal_text(alloc: Global, makespan: u64) -> Result<Vec<u8>, AllocError>
    ensures { IfOk result (λ text. text.items ≡ accepted_line (Claim.Optimal makespan)) }
{
    Ok(format!(in alloc; "accepted: optimal {makespan}\n")?.into_bytes())
}

fn none_text(alloc: Global, bound: u64) -> Result<Vec<u8>, AllocError>
    ensures { IfOk result (λ text. text.items ≡ accepted_line (Claim.NoneUpTo bound)) }
{
    Ok(format!(in alloc; "accepted: no plan up to {bound}\n")?.into_bytes())
}

fn spent_text(alloc: Global, refuted: u64, nodes: u64) -> Result<Vec<u8>, AllocError>
    ensures { IfOk result (λ text. text.items ≡ accepted_line (Claim.Spent refuted nodes)) }
{
    Ok(format!(in alloc; "accepted: refuted {refuted} nodes {nodes}\n")?.into_bytes())
}

fn accepted_text(alloc: Global, claim: Claim) -> Result<Vec<u8>, AllocError>
    ensures { IfOk result (λ text. text.items ≡ accepted_line claim) }
{
    match claim {
        Claim::Optimal(makespan) => optimal_text(alloc, makespan),
        Claim::NoneUpTo(bound) => none_text(alloc, bound),
        Claim::Never => Vec::from_slice(alloc, b"accepted: no plan\n"),
        Claim::Spent { refuted, nodes } => spent_text(alloc, refuted, nodes),
    }
}

fn rejected_text(alloc: Global, line: u64, word: &str) -> Result<Vec<u8>, AllocError>
    ensures { IfOk result (λ text. text.items ≡ line_of (codes "rejected: line " ++ decimal line ++ codes ": " ++ word.now)) }
{
    Ok(format!(in alloc; "rejected: line {line}: {word}\n")?.into_bytes())
}

fn ruling_text(alloc: Global, ruling: Ruling) -> Result<Vec<u8>, AllocError>
    ensures { IfOk result (λ text. text.items ≡ ruling_line ruling) }
{
    match ruling {
        Ruling::Accepted(claim) => accepted_text(alloc, claim),
        Ruling::Rejected { line, why } => rejected_text(alloc, line, why_word(why)),
    }
}

fn ruling_status(ruling: Ruling) -> u8
    ensures value { result ≡ ruling_status ruling }
    ensures small { result ≤ 1 }
{
    match ruling {
        Ruling::Accepted(_) => 0,
        Ruling::Rejected { .. } => 1,
    }
}

/// The version's line, where the version is known, and then the line of the ruling.
fn judged_text(alloc: Global, judged: Judged) -> Result<Vec<u8>, AllocError>
    ensures { IfOk result (λ text. text.items ≡ version_line judged.version ++ ruling_line judged.ruling) }
{
    let mut text = Vec::from_slice(alloc, version_line(judged.version).as_bytes())?;
    let line = ruling_text(alloc, judged.ruling)?;
    text.extend_from_slice(&line)?;
    Ok(text)
}

/// What is answered at a ruling on a certificate.
pub fn ruling_reply(alloc: Global, judged: Judged) -> Result<Reply, AllocError>
    ensures answer { IfOk result (λ reply. reply_answer reply ≡ ruling_answer judged) }
    ensures status { IfOk result (λ reply. reply.status ≤ 1) }
{
    let text = judged_text(alloc, judged)?;
    Ok(Reply {
        status: ruling_status(judged.ruling),
        text,
    })
}
