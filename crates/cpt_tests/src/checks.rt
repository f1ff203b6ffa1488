//! Certificates over domains and problems.

use crate::counting::CountingLibrary;
use crate::scene::{Case, expect, expect_all, is_written, library, output, status_of, words_of};
use std::alloc::{AllocError, Global};
use std::process::Abort;
use std::test::Fail;

const CHECK: &[&str] = &["check", "d", "p", "c"];

/// A key that one action makes and two others use up.
const KEY: &str = "(define (domain key) (:predicates (k) (g1) (g2))
(:durative-action u :parameters () :duration (= ?duration 1) :condition () :effect (at end (k)))
(:durative-action v1 :parameters () :duration (= ?duration 2) :condition (over all (k)) :effect (and (at end (not (k))) (at end (g1))))
(:durative-action v2 :parameters () :duration (= ?duration 2) :condition (over all (k)) :effect (and (at end (not (k))) (at end (g2)))))";

const BOTH: &str = "(define (problem both) (:domain key) (:init) (:goal (and (g1) (g2))))";

/// The plan makes the key twice. Both goals together take 6.
const OPTIMAL: &[&str] = &[
    "cpt 1",
    "claim optimal 6",
    "task 3 3",
    "plan 4",
    "0 0",
    "1 2",
    "3 0",
    "4 1",
    "pairs",
    "h 1 4 4",
    "h 3 6",
    "h 3",
    "dists",
    "d 0 0 0",
    "d 1 0 0",
    "d 1 0 0",
    "tree 5",
    "close",
    "end",
];

/// The same in version 2.
const OPTIMAL_IN_RUNS: &[&str] = &[
    "cpt 2",
    "claim optimal 6",
    "task 3 3",
    "plan 4",
    "0 0",
    "1 2",
    "3 0",
    "4 1",
    "pairs",
    "h 1 4*2",
    "h 3 6",
    "h 3",
    "dists",
    "d 0*3",
    "d 1 0*2",
    "d 1 0*2",
    "tree 5",
    "close",
    "end",
];

/// The tables and the tree of the first, which refute the bound.
const REFUTED: &[&str] = &[
    "cpt 1",
    "claim none-up-to 5",
    "task 3 3",
    "pairs",
    "h 1 4 4",
    "h 3 6",
    "h 3",
    "dists",
    "d 0 0 0",
    "d 1 0 0",
    "d 1 0 0",
    "tree 5",
    "close",
    "end",
];

/// Three actions take turns at one resource.
const TURNS: &str = "(define (domain turns) (:predicates (r) (g1) (g2) (g3))
(:durative-action a1 :parameters () :duration (= ?duration 2) :condition (over all (r)) :effect (and (at end (not (r))) (at end (r)) (at end (g1))))
(:durative-action a2 :parameters () :duration (= ?duration 2) :condition (over all (r)) :effect (and (at end (not (r))) (at end (r)) (at end (g2))))
(:durative-action a3 :parameters () :duration (= ?duration 2) :condition (over all (r)) :effect (and (at end (not (r))) (at end (r)) (at end (g3)))))";

const ALL_THREE: &str =
    "(define (problem all) (:domain turns) (:init (r)) (:goal (and (g1) (g2) (g3))))";

/// The bound 3 is refuted, and of the tree at 4 one node is done.
const SPENT: &[&str] = &[
    "cpt 1",
    "claim spent 3 1",
    "task 4 3",
    "pairs",
    "h 0 2 2 2",
    "h 2 4 4",
    "h 2 4",
    "h 2",
    "dists",
    "d 0 0 0 0",
    "d 0 0 0 0",
    "d 0 0 0 0",
    "tree 3",
    "close",
    "open-tree 4",
    "branch open 1 1",
    "child bring 1 1 0",
    "open",
    "end",
];

/// One action needs what the other adds.
const CHAIN: &str = "(define (domain chain) (:predicates (k) (g))
(:durative-action u :parameters () :duration (= ?duration 1) :condition () :effect (at end (k)))
(:durative-action v :parameters () :duration (= ?duration 2) :condition (over all (k)) :effect (at end (g))))";

const LINKED: &str = "(define (problem linked) (:domain chain) (:init) (:goal (g)))";

/// The chain behind an action that can never start, with which two atoms are never reached.
const PRUNED: &str = "(define (domain chain) (:predicates (z) (k) (g) (w))
(:durative-action x :parameters () :duration (= ?duration 1) :condition (over all (z)) :effect (at end (w)))
(:durative-action u :parameters () :duration (= ?duration 1) :condition () :effect (at end (k)))
(:durative-action v :parameters () :duration (= ?duration 2) :condition (over all (k)) :effect (at end (g))))";

/// Tables of zeros are admissible, and the tree refutes the bound 2 by a branch.
const BRANCHED: &[&str] = &[
    "cpt 1",
    "claim optimal 3",
    "task 2 2",
    "plan 2",
    "0 0",
    "1 1",
    "pairs",
    "h 0 0",
    "h 0",
    "dists",
    "d 0 0",
    "d 0 0",
    "tree 2",
    "branch open 1 1",
    "child bring 1 1 1",
    "4 2 0 1",
    "close",
    "end",
];

/// Steps alone refute the bound.
const STEPPED: &[&str] = &[
    "cpt 1",
    "claim optimal 3",
    "task 2 2",
    "plan 2",
    "0 0",
    "1 1",
    "pairs",
    "h 0 0",
    "h 0",
    "dists",
    "d 0 0",
    "d 0 0",
    "tree 2",
    "4 1 1 2",
    "10 1 0 1",
    "7 1 1 o1",
    "close",
    "end",
];

/// An atom and no action.
const STILL: &str = "(define (domain still) (:predicates (g)))";

const OUT_OF_REACH: &str = "(define (problem far) (:domain still) (:init) (:goal (g)))";

const AT_HAND: &str = "(define (problem near) (:domain still) (:init (g)) (:goal (g)))";

const NEVER: &[&str] = &["cpt 1", "claim none", "task 1 0", "pairs", "h never", "end"];

const AT_ONCE: &[&str] = &["cpt 1", "claim optimal 0", "task 1 0", "plan 0", "end"];

/// The number of a line from 1 on, or 0; the lines that stand in its place; and what is answered.
type Change = (usize, &'static [&'static str], u8, &'static str);

const OVER_OPTIMAL: &[Change] = &[
    (0, &[], 0, "version 1\naccepted: optimal 6\n"),
    (18, &[], 1, "version 1\nrejected: line 18: grammar\n"),
    (
        19,
        &["end", "end"],
        1,
        "version 1\nrejected: line 20: grammar\n",
    ),
    (
        15,
        &["d 01 0 0"],
        1,
        "version 1\nrejected: line 15: grammar\n",
    ),
    (14, &["d 0*3"], 1, "version 1\nrejected: line 14: grammar\n"),
    (11, &["h 3 7"], 1, "version 1\nrejected: line 11: pair\n"),
    (17, &["tree 4"], 1, "version 1\nrejected: line 17: bound\n"),
    (
        2,
        &["claim optimal 7"],
        1,
        "version 1\nrejected: line 4: plan\n",
    ),
    (1, &["cpt 3"], 1, "rejected: line 1: grammar\n"),
    (1, &[], 1, "rejected: line 1: grammar\n"),
];

const OVER_RUNS: &[Change] = &[
    (0, &[], 0, "version 2\naccepted: optimal 6\n"),
    (
        10,
        &["h 1 4 4"],
        1,
        "version 2\nrejected: line 10: grammar\n",
    ),
    (
        10,
        &["h 1 4*3"],
        1,
        "version 2\nrejected: line 10: grammar\n",
    ),
    (1, &["cpt 3"], 1, "rejected: line 1: grammar\n"),
];

/// A plan of makespan 6 is valid, so the bound 6 is not refuted.
const OVER_REFUTED: &[Change] = &[
    (0, &[], 0, "version 1\naccepted: no plan up to 5\n"),
    (12, &["tree 6"], 1, "version 1\nrejected: line 12: bound\n"),
    (
        2,
        &["claim none-up-to 6"],
        1,
        "version 1\nrejected: line 12: bound\n",
    ),
];

const OVER_SPENT: &[Change] = &[
    (0, &[], 0, "version 1\naccepted: refuted 3 nodes 1\n"),
    (
        2,
        &["claim spent 3 2"],
        1,
        "version 1\nrejected: line 19: count\n",
    ),
    (3, &["task 4 4"], 1, "version 1\nrejected: line 3: task\n"),
    (
        10,
        &["d 0 0 0 1"],
        1,
        "version 1\nrejected: line 10: dist\n",
    ),
    (13, &["tree 4"], 1, "version 1\nrejected: line 13: bound\n"),
    (
        16,
        &["4 1 1 3", "branch open 1 1"],
        1,
        "version 1\nrejected: line 16: step\n",
    ),
    (
        16,
        &["branch open 1 0"],
        1,
        "version 1\nrejected: line 16: branch\n",
    ),
    (
        17,
        &["child bring 1 1 1"],
        1,
        "version 1\nrejected: line 17: child\n",
    ),
    (18, &["close"], 1, "version 1\nrejected: line 18: close\n"),
    (18, &[], 1, "version 1\nrejected: line 18: grammar\n"),
];

const OVER_BRANCHED: &[Change] = &[
    (0, &[], 0, "version 1\naccepted: optimal 3\n"),
    (16, &["4 2 0 2"], 1, "version 1\nrejected: line 16: step\n"),
    (16, &[], 1, "version 1\nrejected: line 16: close\n"),
];

const OVER_STEPPED: &[Change] = &[
    (0, &[], 0, "version 1\naccepted: optimal 3\n"),
    (15, &["10 1 0 2"], 1, "version 1\nrejected: line 15: step\n"),
];

const OVER_NEVER: &[Change] = &[
    (0, &[], 0, "version 1\naccepted: no plan\n"),
    (1, &["cpt 2"], 0, "version 2\naccepted: no plan\n"),
];

const OVER_AT_ONCE: &[Change] = &[(0, &[], 0, "version 1\naccepted: optimal 0\n")];

/// The goal has a finite value, as the task has another start.
const OVER_AT_HAND: &[Change] = &[
    (0, &[], 1, "version 1\nrejected: line 5: pair\n"),
    (5, &["h 0"], 1, "version 1\nrejected: line 2: goal\n"),
];

/// A certificate has the numbers of the kept task, which `ground` writes.
const OVER_PRUNED: &[Change] = &[
    (0, &[], 0, "version 1\naccepted: optimal 3\n"),
    (3, &["task 4 3"], 1, "version 1\nrejected: line 3: task\n"),
];

/// A door is shut, and what may be painted only while it is not open.
const DOORS: &str = "(define (domain doors) (:predicates (open) (painted))
(:durative-action shut :parameters () :duration (= ?duration 3) :condition (over all (open)) :effect (at end (not (open))))
(:durative-action paint :parameters () :duration (= ?duration 2) :condition (over all (not (open))) :effect (at end (painted))))";

const ONE_DOOR: &str =
    "(define (problem one) (:domain doors) (:init (open)) (:goal (and (painted) (not (open)))))";

/// The atom that stands for the absence of another is the last of three.
const SHUT: &[&str] = &[
    "cpt 2",
    "claim optimal 5",
    "task 3 2",
    "plan 2",
    "0 0",
    "3 1",
    "pairs",
    "h 0 never*2",
    "h 5*2",
    "h 3",
    "dists",
    "d never 0*2",
    "d never 0*2",
    "tree 4",
    "close",
    "end",
];

const OVER_SHUT: &[Change] = &[
    (0, &[], 0, "version 2\naccepted: optimal 5\n"),
    (6, &["2 1"], 1, "version 2\nrejected: line 4: plan\n"),
];

fn push_lines(text: &mut String, lines: &[&str]) -> Result<(), AllocError> {
    for line in lines {
        text.push_str(line)?;
        text.push_str("\n")?;
    }
    Ok(())
}

/// The lines, each with its line feed, where others stand in the place of the line of this number.
fn text_with(
    alloc: Global,
    lines: &[&str],
    place: usize,
    others: &[&str],
) -> Result<String, AllocError> {
    let mut text = String::new(alloc);
    for (at, line) in lines.iter().enumerate() {
        if at.saturating_add(1) == place {
            push_lines(&mut text, others)?;
        } else {
            push_lines(&mut text, &[*line])?;
        }
    }
    Ok(text)
}

/// Checks the text over the domain and the problem, from files in pieces of at most 1, 2, 3, 7 and 64 bytes.
fn expect_text<'a>(
    rt: &impl Abort,
    alloc: Global,
    domain: &'a str,
    problem: &'a str,
    cert: &'a str,
    status: u8,
    text: &'a str,
) -> Result<(), Fail> {
    let case = Case {
        words: CHECK,
        files: &[("d", domain), ("p", problem), ("c", cert)],
        status,
        text,
    };
    expect_in_pieces(rt, alloc, &case, &[1, 2, 3, 7, 64])
}

fn expect_in_pieces(
    rt: &impl Abort,
    alloc: Global,
    case: &Case,
    sizes: &[usize],
) -> Result<(), Fail> {
    for most in sizes {
        if *most < 1 {
            return Err("no piece")?;
        }
        expect(rt, alloc, case, *most)?;
    }
    Ok(())
}

/// Checks the lines with each of the changes over the domain and the problem.
fn expect_changes(
    rt: &impl Abort,
    alloc: Global,
    domain: &str,
    problem: &str,
    lines: &[&str],
    changes: &[Change],
) -> Result<(), Fail> {
    for (place, others, status, text) in changes {
        let cert = text_with(alloc, lines, *place, others)?;
        expect_text(rt, alloc, domain, problem, cert.as_str(), *status, text)?;
    }
    Ok(())
}

#[test]
fn certificates_of_an_optimal_plan(rt: HostRuntime) -> Result<(), Fail> {
    let alloc = rt.alloc();
    expect_changes(&rt, alloc, KEY, BOTH, OPTIMAL, OVER_OPTIMAL)?;
    expect_changes(&rt, alloc, KEY, BOTH, OPTIMAL_IN_RUNS, OVER_RUNS)
}

/// With the tree's own bound the root is not dead.
fn expect_open_root(rt: &impl Abort, alloc: Global, lines: &[&str]) -> Result<(), Fail> {
    let text = text_with(alloc, lines, 2, &["claim none-up-to 6"])?;
    let Some(head) = text.as_str().strip_suffix("tree 5\nclose\nend\n") else {
        return Err("other lines")?;
    };
    let text = format!(in alloc; "{head}tree 6\nclose\nend\n")?;
    let rejected = "version 1\nrejected: line 13: close\n";
    expect_text(rt, alloc, KEY, BOTH, text.as_str(), 1, rejected)
}

#[test]
fn certificates_of_a_refuted_bound(rt: HostRuntime) -> Result<(), Fail> {
    expect_changes(&rt, rt.alloc(), KEY, BOTH, REFUTED, OVER_REFUTED)?;
    expect_open_root(&rt, rt.alloc(), REFUTED)
}

#[test]
fn certificates_of_a_spent_search(rt: HostRuntime) -> Result<(), Fail> {
    expect_changes(&rt, rt.alloc(), TURNS, ALL_THREE, SPENT, OVER_SPENT)
}

#[test]
fn certificates_with_a_branch_or_with_steps(rt: HostRuntime) -> Result<(), Fail> {
    let alloc = rt.alloc();
    expect_changes(&rt, alloc, CHAIN, LINKED, BRANCHED, OVER_BRANCHED)?;
    expect_changes(&rt, alloc, CHAIN, LINKED, STEPPED, OVER_STEPPED)
}

#[test]
fn certificates_of_tasks_that_are_pruned_or_have_complements(rt: HostRuntime) -> Result<(), Fail> {
    let alloc = rt.alloc();
    expect_changes(&rt, alloc, PRUNED, LINKED, BRANCHED, OVER_PRUNED)?;
    expect_changes(&rt, alloc, DOORS, ONE_DOOR, SHUT, OVER_SHUT)
}

#[test]
fn certificates_without_a_search(rt: HostRuntime) -> Result<(), Fail> {
    let alloc = rt.alloc();
    expect_changes(&rt, alloc, STILL, OUT_OF_REACH, NEVER, OVER_NEVER)?;
    expect_changes(&rt, alloc, STILL, AT_HAND, AT_ONCE, OVER_AT_ONCE)?;
    expect_changes(&rt, alloc, STILL, AT_HAND, NEVER, OVER_AT_HAND)
}

/// Checks each proper front of the lines: the line that is cut, or that is not there, has no form.
fn expect_fronts(
    rt: &impl Abort,
    alloc: Global,
    domain: &str,
    problem: &str,
    lines: &[&str],
) -> Result<(), Fail> {
    let text = text_with(alloc, lines, 0, &[])?;
    let mut front = String::new(alloc);
    let mut line: u32 = 1;
    for next in text.as_str().chars() {
        let version = if line == 1 { "" } else { "version 1\n" };
        let answer = format!(in alloc; "{version}rejected: line {line}: grammar\n")?;
        expect_text(
            rt,
            alloc,
            domain,
            problem,
            front.as_str(),
            1,
            answer.as_str(),
        )?;
        front.push(next)?;
        if next == '\n' {
            line = line.saturating_add(1);
        }
    }
    Ok(())
}

#[test]
fn a_front_of_a_certificate_ends_too_early(rt: HostRuntime) -> Result<(), Fail> {
    expect_fronts(&rt, rt.alloc(), KEY, BOTH, OPTIMAL)?;
    expect_fronts(&rt, rt.alloc(), TURNS, ALL_THREE, SPENT)
}

const NOT_OPENED: [Case<'static>; 2] = [
    Case {
        words: CHECK,
        files: &[("d", KEY), ("p", BOTH)],
        status: 7,
        text: "fault: read\n",
    },
    Case {
        words: CHECK,
        files: &[("d", KEY), ("p", "(define")],
        status: 4,
        text: "fault: problem byte 0: unclosed\n",
    },
];

#[test]
fn the_certificate_is_opened_once_the_task_is_made(rt: HostRuntime) -> Result<(), Fail> {
    expect_all(&rt, rt.alloc(), &NOT_OPENED)
}

/// Whether the certificate is rejected at its first line, and nothing is read behind the first piece of it, which the
/// fifteenth call gives: the next one would fail.
fn is_read_no_further(alloc: Global, cert: &str) -> Result<bool, Fail> {
    let words = words_of(alloc, CHECK)?;
    let files = [("d", KEY), ("p", BOTH), ("c", cert)];
    let mut lib = CountingLibrary {
        inner: library(alloc, &files, &[15], 64)?,
        calls: 0,
    };
    let mut out = output(alloc, &[])?;
    let status = status_of(alloc, &words, &mut lib, &mut out);
    Ok(status == 1 && lib.calls == 15 && is_written(&out, "rejected: line 1: grammar\n"))
}

#[test]
fn nothing_is_read_behind_a_fault(rt: HostRuntime) -> Result<(), Fail> {
    let cert = text_with(rt.alloc(), OPTIMAL, 1, &["cpt 3"])?;
    let is_so = is_read_no_further(rt.alloc(), cert.as_str())?;
    assert!(rt; is_so);
    Ok(())
}
