//! What the words ask for.

ghost use Rattle.std.specs.Prelude.{◌≡◌, map, option_map, string_bytes, IfSome};
ghost use Rattle.cpt_words.specs.Words.{IsWithin, asked_by, asked_in, asked_of, bench_in, is_file_name, prove_in, searched_in, solve_in, three_names, two_names, verb_in};

use cpt_cert_form::Version;
use cpt_options::{Budget, Options, budget_of, is_word, number_within, options_behind};

/// What the words ask for, with the names of its files.
#[derive(Clone, Copy)]
pub enum Command<'a> {
    /// To judge the plan of the second name over the task of the first.
    ValidateTask(&'a str, &'a str),
    /// To judge the plan of the third name over the domain and the problem of the first two.
    Validate(&'a str, &'a str, &'a str),
    /// To list the kept task of the domain and the problem.
    Ground(&'a str, &'a str),
    /// To check the certificate of the third name over the domain and the problem of the first two.
    Check(&'a str, &'a str, &'a str),
    /// To find a plan of least makespan for the domain and the problem.
    Solve(&'a str, &'a str, Budget),
    /// To write the certificate of the same search in this version.
    Prove(&'a str, &'a str, Budget, Version),
    /// To trim the certificate of the third name over the domain and the problem of the first two.
    Trim(&'a str, &'a str, &'a str),
    /// To tighten the plan of the third name over the domain and the problem of the first two.
    Tighten(&'a str, &'a str, &'a str),
    /// To tell each fault of the plan of the third name over the domain and the problem of the first two.
    Explain(&'a str, &'a str, &'a str),
    /// To check the certificate of the third name over the domain and the problem of the first two, and to count its lines.
    ExplainCert(&'a str, &'a str, &'a str),
    /// To write the kept task of the domain and the problem as JSON.
    Export(&'a str, &'a str),
    /// To judge the plan of the second name over the task of the first, both in JSON.
    ValidateJson(&'a str, &'a str),
    /// To make the problem of this size, to solve it and to check the certificate of its plan.
    Bench(u32),
}

/// A command without the names of its files.
#[derive(Clone, Copy)]
pub enum Verb {
    ValidateTask,
    Validate,
    Ground,
    Check,
    Solve,
    Prove,
    Trim,
    Tighten,
    Explain,
    ExplainCert,
    Export,
    ValidateJson,
    Bench,
}

/// Whether the word is a name and no option.
fn is_name(word: &str) -> bool
    ensures { result ≡ is_file_name word.now }
{
    match word.as_bytes() {
        [] => false,
        [first, ..] => *first != b'-',
    }
}

/// The command whose first word this is.
fn verb_in(word: &str) -> Option<Verb>
    ensures { result ≡ verb_in word.now }
{
    if is_word(word, "validate-task") {
        Some(Verb::ValidateTask)
    } else if is_word(word, "validate") {
        Some(Verb::Validate)
    } else if is_word(word, "ground") {
        Some(Verb::Ground)
    } else if is_word(word, "check") {
        Some(Verb::Check)
    } else if is_word(word, "solve") {
        Some(Verb::Solve)
    } else if is_word(word, "prove") {
        Some(Verb::Prove)
    } else if is_word(word, "trim") {
        Some(Verb::Trim)
    } else if is_word(word, "tighten") {
        Some(Verb::Tighten)
    } else if is_word(word, "explain") {
        Some(Verb::Explain)
    } else if is_word(word, "explain-cert") {
        Some(Verb::ExplainCert)
    } else if is_word(word, "export") {
        Some(Verb::Export)
    } else if is_word(word, "validate-json") {
        Some(Verb::ValidateJson)
    } else if is_word(word, "bench") {
        Some(Verb::Bench)
    } else {
        None
    }
}

/// Two names of files and nothing else.
fn two_names(words: &[String]) -> Option<(&str, &str)>
    ensures { option_map (λ n. (n.0.now, n.1.now)) result ≡ two_names (map string_bytes words.now) }
{
    let [first, second] = words else {
        return None;
    };
    let first = first.as_str();
    let second = second.as_str();
    if is_name(first) && is_name(second) {
        return Some((first, second));
    }
    None
}

/// Three names of files and nothing else.
fn three_names(words: &[String]) -> Option<(&str, &str, &str)>
    ensures { option_map (λ n. (n.0.now, n.1.now, n.2.now)) result ≡ three_names (map string_bytes words.now) }
{
    let [first, second, third] = words else {
        return None;
    };
    let first = first.as_str();
    let second = second.as_str();
    let third = third.as_str();
    if is_name(first) && is_name(second) && is_name(third) {
        return Some((first, second, third));
    }
    None
}

/// Two names of files, and the options behind them.
fn searched(words: &[String]) -> Option<(&str, &str, Options)>
    ensures { option_map (λ n. (n.0.now, n.1.now, n.2)) result ≡ searched_in (map string_bytes words.now) }
{
    let [first, second, rest @ ..] = words else {
        return None;
    };
    let first = first.as_str();
    let second = second.as_str();
    if !(is_name(first) && is_name(second)) {
        return None;
    }
    let none = Options {
        max: None,
        nodes: None,
        version: None,
    };
    let given = options_behind(none, rest)?;
    Some((first, second, given))
}

/// What the words ask of `solve`, which has no version.
fn solve_by(words: &[String]) -> Option<Command<'_>>
    ensures { option_map asked_of result ≡ solve_in (map string_bytes words.now) }
{
    let (domain, problem, given) = searched(words)?;
    match given.version {
        None => Some(Command::Solve(domain, problem, budget_of(given))),
        Some(_) => None,
    }
}

/// What the words ask of `prove`: the second version, where none is given.
fn prove_by(words: &[String]) -> Option<Command<'_>>
    ensures { option_map asked_of result ≡ prove_in (map string_bytes words.now) }
{
    let (domain, problem, given) = searched(words)?;
    let version = given.version.unwrap_or(Version::Two);
    Some(Command::Prove(domain, problem, budget_of(given), version))
}

/// The size of a made problem, and nothing else.
fn bench_by(words: &[String]) -> Option<Command<'_>>
    ensures { option_map asked_of result ≡ bench_in (map string_bytes words.now) }
{
    let [word] = words else {
        return None;
    };
    let n = number_within(1, 40, word.as_str())?;
    Some(Command::Bench(n as u32))
}

/// What the words behind the first one ask of the command.
fn command_by(verb: Verb, words: &[String]) -> Option<Command<'_>>
    ensures { option_map asked_of result ≡ asked_by verb (map string_bytes words.now) }
{
    match verb {
        Verb::ValidateTask => two_names(words).map(|n| Command::ValidateTask(n.0, n.1)),
        Verb::Validate => three_names(words).map(|n| Command::Validate(n.0, n.1, n.2)),
        Verb::Ground => two_names(words).map(|n| Command::Ground(n.0, n.1)),
        Verb::Check => three_names(words).map(|n| Command::Check(n.0, n.1, n.2)),
        Verb::Solve => solve_by(words),
        Verb::Prove => prove_by(words),
        Verb::Trim => three_names(words).map(|n| Command::Trim(n.0, n.1, n.2)),
        Verb::Tighten => three_names(words).map(|n| Command::Tighten(n.0, n.1, n.2)),
        Verb::Explain => three_names(words).map(|n| Command::Explain(n.0, n.1, n.2)),
        Verb::ExplainCert => three_names(words).map(|n| Command::ExplainCert(n.0, n.1, n.2)),
        Verb::Export => two_names(words).map(|n| Command::Export(n.0, n.1)),
        Verb::ValidateJson => two_names(words).map(|n| Command::ValidateJson(n.0, n.1)),
        Verb::Bench => bench_by(words),
    }
}

/// The command of the words.
fn read_command(words: &[String]) -> Option<Command<'_>>
    ensures { option_map asked_of result ≡ asked_in (map string_bytes words.now) }
{
    let [first, rest @ ..] = words else {
        return None;
    };
    let verb = verb_in(first.as_str())?;
    command_by(verb, rest)
}

/// What the words ask for; `None` where they are no words of a command.
pub fn command_in(words: &[String]) -> Option<Command<'_>>
    ensures asked { option_map asked_of result ≡ asked_in (map string_bytes words.now) }
    ensures within { IfSome result (λ command. IsWithin (asked_of command)) }
{
    read_command(words)
}
