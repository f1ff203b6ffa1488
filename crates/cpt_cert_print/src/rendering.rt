//! The words of a line, rendered into a line of limited room. None of this takes memory.

ghost use Rattle.std.specs.Prelude.{◌≡◌, ◌+◌, ◌*◌, ◌≤◌, ◌<◌, [], ◌∷◌, ◌++◌, length, map};
ghost use Rattle.std.specs.Fmt.{decimal};
ghost use Rattle.cpt_cert_form.specs.Forms.{span_word, cand_word, run_word, claim_words, decision_words, flaw_words, step_words, node_words, joined};
ghost use Rattle.cpt_cert_print.specs.Items.{spaced};

use arrayvec::ArrayString;
use cpt_cert_form::{Claim, Run};
use cpt_sheet::{Cand, Decision, Flaw, NodeLine, Step};
use cpt_task::Span;
use itoa::Buffer;

/// A line that is rendered: room for the longest one.
pub(crate) type Line = ArrayString<44000>;

pub(crate) fn push_number(line: &mut Line, n: u64)
    requires { length line.old.bytes + 20 ≤ 44000 }
    ensures text { line.new.bytes ≡ line.old.bytes ++ decimal n }
    ensures short { length line.new.bytes ≤ length line.old.bytes + 20 }
{
    let mut digits = Buffer::new();
    line.push_str(digits.format(n));
}

/// A space and a number.
pub(crate) fn push_field(line: &mut Line, n: u64)
    requires { length line.old.bytes + 21 ≤ 44000 }
    ensures text { line.new.bytes ≡ line.old.bytes ++ 32 ∷ decimal n }
    ensures short { length line.new.bytes ≤ length line.old.bytes + 21 }
{
    line.push_str(" ");
    push_number(line, n);
}

/// A space and a span.
pub(crate) fn push_span(line: &mut Line, v: Span)
    requires { length line.old.bytes + 21 ≤ 44000 }
    ensures text { line.new.bytes ≡ line.old.bytes ++ 32 ∷ span_word v }
    ensures short { length line.new.bytes ≤ length line.old.bytes + 21 }
{
    match v {
        Span::At(n) => push_field(line, n),
        Span::Never => line.push_str(" never"),
    }
}

/// A space and a candidate.
fn push_cand(line: &mut Line, c: Cand)
    requires { length line.old.bytes + 22 ≤ 44000 }
    ensures text { line.new.bytes ≡ line.old.bytes ++ 32 ∷ cand_word c }
    ensures short { length line.new.bytes ≤ length line.old.bytes + 22 }
{
    match c {
        Cand::Tok(n) => {
            line.push_str(" t");
            push_number(line, u64::from(n));
        }
        Cand::Out(n) => {
            line.push_str(" o");
            push_number(line, u64::from(n));
        }
    }
}

/// A space and a run.
pub(crate) fn push_run(line: &mut Line, run: Run)
    requires some { 1 ≤ run.count }
    requires room { length line.old.bytes + 21 * run.count ≤ 44000 }
    ensures text { line.new.bytes ≡ line.old.bytes ++ 32 ∷ run_word run }
    ensures short { length line.new.bytes ≤ length line.old.bytes + 21 * run.count }
{
    push_span(line, run.value);
    if run.count != 1 {
        line.push_str("*");
        push_number(line, u64::from(run.count));
    }
}

/// Two numbers behind a word.
fn push_two(line: &mut Line, word: &str, x: u32, y: u32)
    requires room { length line.old.bytes + 60 ≤ 44000 }
    requires word { length word.now ≤ 16 }
    ensures text { line.new.bytes ≡ line.old.bytes ++ (word.now ++ spaced (decimal x ∷ decimal y ∷ [])) }
    ensures short { length line.new.bytes ≤ length line.old.bytes + 60 }
{
    line.push_str(word);
    push_field(line, u64::from(x));
    push_field(line, u64::from(y));
}

/// Two numbers and a span behind a word.
fn push_moved(line: &mut Line, word: &str, x: u32, y: u32, v: Span)
    requires room { length line.old.bytes + 90 ≤ 44000 }
    requires word { length word.now ≤ 16 }
    ensures text { line.new.bytes ≡ line.old.bytes ++ (word.now ++ spaced (decimal x ∷ decimal y ∷ span_word v ∷ [])) }
    ensures short { length line.new.bytes ≤ length line.old.bytes + 90 }
{
    push_two(line, word, x, y);
    push_span(line, v);
}

/// Two numbers and a candidate behind a word.
fn push_taken(line: &mut Line, word: &str, x: u32, y: u32, c: Cand)
    requires room { length line.old.bytes + 90 ≤ 44000 }
    requires word { length word.now ≤ 16 }
    ensures text { line.new.bytes ≡ line.old.bytes ++ (word.now ++ spaced (decimal x ∷ decimal y ∷ cand_word c ∷ [])) }
    ensures short { length line.new.bytes ≤ length line.old.bytes + 90 }
{
    push_two(line, word, x, y);
    push_cand(line, c);
}

/// Three numbers behind a word.
fn push_three(line: &mut Line, word: &str, x: u32, y: u32, z: u32)
    requires room { length line.old.bytes + 90 ≤ 44000 }
    requires word { length word.now ≤ 16 }
    ensures text { line.new.bytes ≡ line.old.bytes ++ (word.now ++ spaced (decimal x ∷ decimal y ∷ decimal z ∷ [])) }
    ensures short { length line.new.bytes ≤ length line.old.bytes + 90 }
{
    push_two(line, word, x, y);
    push_field(line, u64::from(z));
}

/// Each word behind a space.
fn push_decision(line: &mut Line, decision: Decision)
    requires { length line.old.bytes + 100 ≤ 44000 }
    ensures text { line.new.bytes ≡ line.old.bytes ++ spaced (decision_words decision) }
    ensures short { length line.new.bytes ≤ length line.old.bytes + 100 }
{
    match decision {
        Decision::Join { tok, pre, by } => push_three(line, " join", tok, pre, by),
        Decision::Bring { tok, pre, act } => push_three(line, " bring", tok, pre, act),
        Decision::Before { first, second } => push_two(line, " before", first, second),
    }
}

/// Each word behind a space.
fn push_flaw(line: &mut Line, flaw: Flaw)
    requires { length line.old.bytes + 100 ≤ 44000 }
    ensures text { line.new.bytes ≡ line.old.bytes ++ spaced (flaw_words flaw) }
    ensures short { length line.new.bytes ≤ length line.old.bytes + 100 }
{
    match flaw {
        Flaw::Threat { tok, pre, foe } => push_three(line, " threat", tok, pre, foe),
        Flaw::OpenNeed { tok, pre } => push_two(line, " open", tok, pre),
        Flaw::Clash { first, second } => push_two(line, " clash", first, second),
    }
}

/// Three numbers and a side behind a word.
fn push_sided(line: &mut Line, word: &str, x: u32, y: u32, z: u32, side: &str)
    requires room { length line.old.bytes + 120 ≤ 44000 }
    requires word { length word.now ≤ 16 }
    requires side { length side.now ≤ 16 }
    ensures text { line.new.bytes ≡ line.old.bytes ++ (word.now ++ spaced (decimal x ∷ decimal y ∷ decimal z ∷ side.now ∷ [])) }
    ensures short { length line.new.bytes ≤ length line.old.bytes + 120 }
{
    push_three(line, word, x, y, z);
    line.push_str(" ");
    line.push_str(side);
}

/// Two numbers, a side and a span behind a word.
fn push_outside(line: &mut Line, word: &str, x: u32, y: u32, side: &str, v: Span)
    requires room { length line.old.bytes + 120 ≤ 44000 }
    requires word { length word.now ≤ 16 }
    requires side { length side.now ≤ 16 }
    ensures text { line.new.bytes ≡ line.old.bytes ++ (word.now ++ spaced (decimal x ∷ decimal y ∷ side.now ∷ span_word v ∷ [])) }
    ensures short { length line.new.bytes ≤ length line.old.bytes + 120 }
{
    push_two(line, word, x, y);
    line.push_str(" ");
    line.push_str(side);
    push_span(line, v);
}

fn push_step(line: &mut Line, step: Step)
    requires { length line.old.bytes + 150 ≤ 44000 }
    ensures text { line.new.bytes ≡ line.old.bytes ++ joined (step_words step) }
    ensures short { length line.new.bytes ≤ length line.old.bytes + 150 }
{
    match step {
        Step::R1 { first, second, to } => push_moved(line, "1", first, second, to),
        Step::R2 { first, second, to } => push_moved(line, "2", first, second, to),
        Step::R3 { first, second } => push_two(line, "3", first, second),
        Step::R4 { tok, pre, to } => push_moved(line, "4", tok, pre, to),
        Step::R5 { tok, pre, cand } => push_taken(line, "5", tok, pre, cand),
        Step::R6 { tok, pre } => push_two(line, "6", tok, pre),
        Step::R7 { tok, pre, act } => push_taken(line, "7", tok, pre, Cand::Out(act)),
        Step::R8 {
            tok,
            pre,
            cand,
            foe,
        } => {
            push_taken(line, "8", tok, pre, cand);
            push_field(line, u64::from(foe));
        }
        Step::R9After { tok, pre, foe } => push_sided(line, "9", tok, pre, foe, "after"),
        Step::R9Ahead { tok, pre, foe } => push_sided(line, "9", tok, pre, foe, "ahead"),
        Step::R10 { act, pre, to } => push_moved(line, "10", act, pre, to),
        Step::R11After { tok, pre, act, to } => {
            push_sided(line, "11", tok, pre, act, "after");
            push_span(line, to);
        }
        Step::R11Ahead { tok, pre, act, to } => {
            push_sided(line, "11", tok, pre, act, "ahead");
            push_span(line, to);
        }
        Step::R12After { tok, act, to } => push_outside(line, "12", tok, act, "after", to),
        Step::R12Ahead { tok, act, to } => push_outside(line, "12", tok, act, "ahead", to),
        Step::R13 {
            tok,
            pre,
            cand,
            other,
        } => {
            push_taken(line, "13", tok, pre, cand);
            push_field(line, u64::from(other));
        }
    }
}

/// Each word behind a space.
pub(crate) fn push_claim(line: &mut Line, claim: Claim)
    requires { length line.old.bytes + 100 ≤ 44000 }
    ensures text { line.new.bytes ≡ line.old.bytes ++ spaced (claim_words claim) }
    ensures short { length line.new.bytes ≤ length line.old.bytes + 100 }
{
    match claim {
        Claim::Optimal(makespan) => {
            line.push_str(" optimal");
            push_field(line, makespan);
        }
        Claim::NoneUpTo(bound) => {
            line.push_str(" none-up-to");
            push_field(line, bound);
        }
        Claim::Never => line.push_str(" none"),
        Claim::Spent { refuted, nodes } => {
            line.push_str(" spent");
            push_field(line, refuted);
            push_field(line, nodes);
        }
    }
}

pub(crate) fn push_node(line: &mut Line, node: NodeLine)
    requires { length line.old.bytes + 200 ≤ 44000 }
    ensures text { line.new.bytes ≡ line.old.bytes ++ joined (node_words node) }
    ensures short { length line.new.bytes ≤ length line.old.bytes + 200 }
{
    match node {
        NodeLine::Child(decision) => {
            line.push_str("child");
            push_decision(line, decision);
        }
        NodeLine::Narrow(step) => push_step(line, step),
        NodeLine::Close => line.push_str("close"),
        NodeLine::Branch(flaw) => {
            line.push_str("branch");
            push_flaw(line, flaw);
        }
        NodeLine::OpenNode => line.push_str("open"),
    }
}
