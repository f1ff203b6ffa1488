//! What is said of a certificate and its lines.

ghost use Rattle.std.specs.Prelude.{◌≡◌, ◌≤◌, IfOk};
ghost use Rattle.cpt_answer.specs.Endings.{reply_answer};
ghost use Rattle.cpt_counts.specs.Counting.{AreFew};
ghost use Rattle.cpt_explain_cert_files.specs.Counted.{counted_answer, ruling_counts};

use crate::numbers::counts_text;
use cpt_answer::Reply;
use cpt_check::{Judged, Ruling};
use cpt_check_files::ruling_reply;
use cpt_counts::Counts;
use std::alloc::{AllocError, Global};

/// The lines of the counts of an accepted certificate, and nothing of a text that is none.
fn ruling_counts(alloc: Global, ruling: Ruling, counts: &Counts) -> Result<Vec<u8>, AllocError>
    requires { AreFew 16777216 counts.now }
    ensures { IfOk result (λ text. text.items ≡ ruling_counts ruling counts.now) }
{
    match ruling {
        Ruling::Accepted(_) => counts_text(alloc, counts),
        Ruling::Rejected { .. } => Ok(Vec::new(alloc)),
    }
}

/// What is answered at a ruling on a text with these counts.
pub fn counted_reply(alloc: Global, judged: Judged, counts: &Counts) -> Result<Reply, AllocError>
    requires { AreFew 16777216 counts.now }
    ensures answer { IfOk result (λ reply. reply_answer reply ≡ counted_answer judged counts.now) }
    ensures status { IfOk result (λ reply. reply.status ≤ 1) }
{
    let mut reply = ruling_reply(alloc, judged)?;
    let lines = ruling_counts(alloc, judged.ruling, counts)?;
    reply.text.extend_from_slice(&lines)?;
    Ok(reply)
}
