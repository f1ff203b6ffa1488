//! The laws: their contracts are what they say, and their bodies are empty.

ghost use Rattle.cpt_cert_accept.specs.Laws.{BringsTakeBytes, CertificatesHold, CertificatesRead, NoFault, OneClaim, OneFault, OneOutcome, WholeLines, WholeTexts};

/// Whatever text is a certificate of a task, its claim holds: its plan is optimal with the claimed makespan, no valid
/// plan has a makespan of at most the refuted bound, or there is no valid plan.
pub fn certificates_hold()
    ensures { CertificatesHold }
{}

/// The reading of lines has at most one outcome: at most one fault is the first, and lines that are read whole have none.
pub fn one_outcome()
    ensures { OneOutcome }
{}

/// Lines are those of a certificate exactly where they are read whole, without a fault.
pub fn whole_lines()
    ensures { WholeLines }
{}

/// A text of at most 2^36 bytes whose lines are read whole, without a fault, is a certificate of the task.
pub fn whole_texts()
    ensures { WholeTexts }
{}

/// The lines of a certificate of at most 2^36 bytes are read whole, without a fault.
pub fn certificates_read()
    ensures { CertificatesRead }
{}

/// A text has at most one first fault.
pub fn one_fault()
    ensures { OneFault }
{}

/// A certificate of at most 2^36 bytes has no fault.
pub fn no_fault()
    ensures { NoFault }
{}

/// A text has at most one version and claim.
pub fn one_claim()
    ensures { OneClaim }
{}

/// A text has 18 bytes for each token that its lines bring.
pub fn brings_take_bytes()
    ensures { BringsTakeBytes }
{}
