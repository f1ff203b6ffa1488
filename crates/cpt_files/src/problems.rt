//! Domains and problems in files.

ghost use Rattle.std.specs.Prelude.{◌≡◌, ◌≢◌, ◌-◌, ◌^◌, ◌<◌, ◌≤◌, Bool, length, IsTrue, IfOk, IfSome, [], Some, IsSome, OnOk};
ghost use Rattle.cpt_domain.specs.Sound.{IsSound};
ghost use Rattle.cpt_facts.specs.Fitting.{Fits};
ghost use Rattle.cpt_answer.specs.Giving.{Gives};
ghost use Rattle.cpt_files.specs.Texts.{at_byte, domain_ending, problem_ending, sexp_ending, DomainText, DomainUnder, ParsesTo, ProblemText, ProblemUnder};

use crate::files::text_in;
use cpt_answer::{ByteFault, Cause, Ending};
use cpt_domain::{Domain, DomainError, read_domain};
use cpt_facts::Problem;
use cpt_io::Library;
use cpt_problem::{ProblemError, read_problem};
use cpt_sexp::{Forest, SexpError, parse};
use cpt_task::Limit;
use std::alloc::Global;

/// Which of the two parenthesised texts.
#[derive(Clone, Copy, Debug, PartialEq, Eq)]
pub enum Source {
    OfDomain,
    OfProblem,
}

fn at_byte(source: Source, at: u32, fault: ByteFault) -> Ending
    ensures value { result ≡ at_byte source at fault }
    ensures kept { result ≢ Ending.Read }
{
    match source {
        Source::OfDomain => Ending::Because(Cause::DomainByte(at, fault)),
        Source::OfProblem => Ending::Because(Cause::ProblemByte(at, fault)),
    }
}

fn from_sexp(source: Source, e: SexpError) -> Ending
    ensures value { result ≡ sexp_ending source e }
    ensures kept { result ≢ Ending.Read }
{
    match e {
        SexpError::BadByte(at) => at_byte(source, at, ByteFault::BadByte),
        SexpError::Unopened(at) => at_byte(source, at, ByteFault::Unopened),
        SexpError::Unclosed(at) => at_byte(source, at, ByteFault::Unclosed),
        SexpError::Deep(_) => Ending::Because(Cause::Passed(Limit::Nesting)),
        SexpError::Memory => Ending::Memory,
    }
}

fn from_domain(e: DomainError) -> Ending
    ensures value { result ≡ domain_ending e }
    ensures kept { result ≢ Ending.Read }
{
    match e {
        DomainError::Shape(at) => Ending::Because(Cause::DomainByte(at, ByteFault::Shape)),
        DomainError::BadName(at) => Ending::Because(Cause::DomainByte(at, ByteFault::BadName)),
        DomainError::Twice(at) => Ending::Because(Cause::DomainByte(at, ByteFault::Twice)),
        DomainError::BadType(at) => Ending::Because(Cause::DomainByte(at, ByteFault::BadType)),
        DomainError::Arity(at) => Ending::Because(Cause::DomainByte(at, ByteFault::Arity)),
        DomainError::Feature(which, at) => Ending::Because(Cause::DomainByte(
            at,
            ByteFault::Feature(which),
        )),
        DomainError::Window(at) => Ending::Because(Cause::DomainByte(at, ByteFault::Window)),
        DomainError::Duration(at) => Ending::Because(Cause::DomainByte(at, ByteFault::Duration)),
        DomainError::Limit(which, _) => Ending::Because(Cause::Passed(which)),
        DomainError::Memory => Ending::Memory,
    }
}

fn from_problem(e: ProblemError) -> Ending
    ensures value { result ≡ problem_ending e }
    ensures kept { result ≢ Ending.Read }
{
    match e {
        ProblemError::Shape(at) => Ending::Because(Cause::ProblemByte(at, ByteFault::Shape)),
        ProblemError::BadName(at) => Ending::Because(Cause::ProblemByte(at, ByteFault::BadName)),
        ProblemError::Twice(at) => Ending::Because(Cause::ProblemByte(at, ByteFault::Twice)),
        ProblemError::BadType(at) => Ending::Because(Cause::ProblemByte(at, ByteFault::BadType)),
        ProblemError::Arity(at) => Ending::Because(Cause::ProblemByte(at, ByteFault::Arity)),
        ProblemError::Feature(which, at) => Ending::Because(Cause::ProblemByte(
            at,
            ByteFault::Feature(which),
        )),
        ProblemError::Duration(at) => Ending::Because(Cause::ProblemByte(at, ByteFault::Duration)),
        ProblemError::Limit(which, _) => Ending::Because(Cause::Passed(which)),
        ProblemError::OtherDomain(at) => Ending::Because(Cause::ProblemByte(
            at,
            ByteFault::OtherDomain,
        )),
        ProblemError::Memory => Ending::Memory,
    }
}

/// The words and groups of the text.
fn parsed(alloc: Global, source: Source, text: &[u8]) -> Result<Forest, Ending>
    requires { length text.now ≤ 16777216 }
    ensures answer { (steady : Bool) → Gives steady (λ forest. forest) result (ParsesTo source text.now) }
    ensures kept { result ≢ Err Ending.Read }
{
    match parse(alloc, text) {
        Ok(forest) => Ok(forest),
        Err(e) => Err(from_sexp(source, e)),
    }
}

/// The domain that the text is.
fn domain_in_text(alloc: Global, text: &[u8]) -> Result<Domain, Ending>
    requires { length text.now ≤ 16777216 }
    ensures answer { (steady : Bool) → Gives steady (λ domain. domain) result (DomainText text.now) }
    ensures sound { IfOk result IsSound }
    ensures kept { result ≢ Err Ending.Read }
{
    let forest = match parsed(alloc, Source::OfDomain, text) {
        Ok(forest) => forest,
        Err(ending) => return Err(ending),
    };
    match read_domain(alloc, &forest) {
        Ok(domain) => Ok(domain),
        Err(e) => Err(from_domain(e)),
    }
}

/// The problem of the domain that the text is.
fn problem_in_text(alloc: Global, domain: &Domain, text: &[u8]) -> Result<Problem, Ending>
    requires sound { IsSound domain.now }
    requires short { length text.now ≤ 16777216 }
    ensures answer { (steady : Bool) → Gives steady (λ problem. problem) result (ProblemText domain.now text.now) }
    ensures fits { IfOk result (λ problem. Fits domain.now problem) }
    ensures kept { result ≢ Err Ending.Read }
{
    let forest = match parsed(alloc, Source::OfProblem, text) {
        Ok(forest) => forest,
        Err(ending) => return Err(ending),
    };
    match read_problem(alloc, domain, &forest) {
        Ok(problem) => Ok(problem),
        Err(e) => Err(from_problem(e)),
    }
}

/// The domain in the file under the name.
pub fn domain_in<L: Library>(alloc: Global, lib: &mut L, name: &str) -> Result<Domain, Ending>
    requires { L.faults lib.old < 2 ^ 64 - 1 }
    ensures same { L.holds lib.new ≡ L.holds lib.old }
    ensures answer { IfSome (L.holds lib.old) (λ files. Gives (L.steady lib.old) (λ domain. domain) result (DomainUnder files name.now)) }
    ensures sound { IfOk result IsSound }
    ensures failed { result ≡ Err Ending.Read → L.faults lib.old < L.faults lib.new }
    ensures kept { result ≢ Err Ending.Read → L.faults lib.new ≡ L.faults lib.old }
    ensures steady { IsTrue (L.steady lib.old) → IsTrue (L.steady lib.new) }
    ensures end { OnOk result (IsSome (L.holds lib.old) → L.left lib.new ≡ Some []) }
{
    let text = match text_in(alloc, lib, name) {
        Ok(text) => text,
        Err(ending) => return Err(ending),
    };
    domain_in_text(alloc, &text)
}

/// The problem of the domain in the file under the name.
pub fn problem_in<L: Library>(
    alloc: Global,
    lib: &mut L,
    domain: &Domain,
    name: &str,
) -> Result<Problem, Ending>
    requires faults { L.faults lib.old < 2 ^ 64 - 1 }
    requires sound { IsSound domain.now }
    ensures same { L.holds lib.new ≡ L.holds lib.old }
    ensures answer { IfSome (L.holds lib.old) (λ files. Gives (L.steady lib.old) (λ problem. problem) result (ProblemUnder files domain.now name.now)) }
    ensures fits { IfOk result (λ problem. Fits domain.now problem) }
    ensures failed { result ≡ Err Ending.Read → L.faults lib.old < L.faults lib.new }
    ensures kept { result ≢ Err Ending.Read → L.faults lib.new ≡ L.faults lib.old }
    ensures steady { IsTrue (L.steady lib.old) → IsTrue (L.steady lib.new) }
    ensures end { OnOk result (IsSome (L.holds lib.old) → L.left lib.new ≡ Some []) }
{
    let text = match text_in(alloc, lib, name) {
        Ok(text) => text,
        Err(ending) => return Err(ending),
    };
    problem_in_text(alloc, domain, &text)
}
