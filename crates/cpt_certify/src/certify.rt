//! The certificate of what a search finds, by its parts.

ghost use Rattle.std.specs.Prelude.{◌≡◌};
ghost use Rattle.cpt_outcome.specs.Nodes.{SearchProblem};
ghost use Rattle.cpt_outcome.specs.Outcomes.{HasOutcome};
ghost use Rattle.cpt_search.specs.Answers.{HasTrees, outcome_of};
ghost use Rattle.cpt_evidence.specs.Evidence.{IsEvidence, claim_of};

use cpt_cert_print::{Cert, Claim};
use cpt_search::Outcome;
use cpt_tables::Tables;

/// What is claimed where a search up to `max`, with a budget of `nodes` for each bound, finds this.
pub fn claim_of(found: &Outcome, max: u64, nodes: u64) -> Claim
    ensures { result ≡ claim_of max nodes (outcome_of found.now) }
{
    match found {
        Outcome::Optimal { makespan, .. } => Claim::Optimal(*makespan),
        Outcome::NoneUpTo { .. } => Claim::NoneUpTo(max),
        Outcome::Never => Claim::Never,
        Outcome::Spent { refuted, .. } => Claim::Spent {
            refuted: *refuted,
            nodes,
        },
    }
}

/// The certificate of what a search finds, over its tables. It borrows what it has, and takes no memory.
pub fn cert_of<'a>(tables: &'a Tables, found: &'a Outcome, max: u64, nodes: u64) -> Cert<'a>
    ensures { (w : SearchProblem) → w.tables ≡ tables.now → HasOutcome w max nodes (outcome_of found.now) → HasTrees w max nodes found.now → IsEvidence w max nodes (outcome_of found.now) result }
{
    let claim = claim_of(found, max, nodes);
    let mut cert = Cert {
        claim,
        plan: &[],
        tables: Some(tables),
        tree: None,
        partial: None,
    };
    match found {
        Outcome::Optimal { plan, tree, .. } => {
            cert.plan = plan.as_slice();
            cert.tree = tree.as_ref();
        }
        Outcome::NoneUpTo { tree } => cert.tree = Some(tree),
        Outcome::Never => {}
        Outcome::Spent { full, partial, .. } => {
            cert.tree = Some(full);
            cert.partial = Some(partial);
        }
    }
    cert
}
