//! The laws: their contracts are what they say, and their bodies are empty.

ghost use Rattle.cpt_evidence.specs.Laws.{EvidenceIsAccepted, EvidenceIsWhole, OneEvidence};

/// A certificate that tells the outcome of a search is whole, as the printer of certificates asks.
pub fn evidence_is_whole()
    ensures { EvidenceIsWhole }
{}

/// The text of a certificate that tells the outcome of a search is one of the task, in either version, with that outcome's
/// claim.
pub fn evidence_is_accepted()
    ensures { EvidenceIsAccepted }
{}

/// All lines but the steps are the same in each certificate that tells an outcome.
pub fn one_evidence()
    ensures { OneEvidence }
{}
