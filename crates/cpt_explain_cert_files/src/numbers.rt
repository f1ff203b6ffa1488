//! The lines of counts.

ghost use Rattle.std.specs.Prelude.{◌≡◌, ◌≤◌, ◌++◌, All, codes, length, IfOk, OnOk};
ghost use Rattle.std.specs.Fmt.{decimal};
ghost use Rattle.std.specs.List.{sum};
ghost use Rattle.cpt_answer.specs.Lines.{line_of};
ghost use Rattle.cpt_counts.specs.Counting.{AreFew};
ghost use Rattle.cpt_explain_cert_files.specs.Numbers.{count_line, counts_lines, rule_line, rule_lines};

use cpt_counts::Counts;
use std::alloc::{AllocError, Global};

fn count_text(alloc: Global, word: &str, n: u64) -> Result<Vec<u8>, AllocError>
    ensures { IfOk result (λ text. text.items ≡ count_line word.now n) }
{
    Ok(format!(in alloc; "{word} {n}\n")?.into_bytes())
}

/// Puts a word and a number behind the text.
fn put_count(alloc: Global, text: &mut Vec<u8>, word: &str, n: u64) -> Result<(), AllocError>
    ensures { OnOk result (text.new.items ≡ text.old.items ++ count_line word.now n) }
{
    let line = count_text(alloc, word, n)?;
    text.extend_from_slice(&line)?;
    Ok(())
}

fn rule_text(alloc: Global, rule: u64, n: u64) -> Result<Vec<u8>, AllocError>
    ensures { IfOk result (λ text. text.items ≡ line_of (codes "rule " ++ decimal rule ++ codes ": " ++ decimal n)) }
{
    Ok(format!(in alloc; "rule {rule}: {n}\n")?.into_bytes())
}

/// Puts how many steps of a rule there are behind the text, where there are any.
fn put_rule(alloc: Global, text: &mut Vec<u8>, rule: u64, n: u64) -> Result<(), AllocError>
    ensures { OnOk result (text.new.items ≡ text.old.items ++ rule_line rule n) }
{
    if n == 0 {
        return Ok(());
    }
    let line = rule_text(alloc, rule, n)?;
    text.extend_from_slice(&line)?;
    Ok(())
}

/// The lines of the rules that have steps; that of rule 1 comes first.
#[tactic(auto, using(crate::proofs::Lines::rules_more))]
fn rules_text(alloc: Global, rules: &[u64]) -> Result<Vec<u8>, AllocError>
    ensures { IfOk result (λ text. text.items ≡ rule_lines 1 rules.now) }
{
    let mut text = Vec::new(alloc);
    for (place, n) in rules.iter().enumerate() {
        put_rule(alloc, &mut text, place as u64 + 1, *n)?;
    }
    Ok(text)
}

/// How many steps there are of all rules.
#[tactic(auto, using(crate::proofs::Lines::sum_more, crate::proofs::Lines::sum_bound))]
fn steps_of(rules: &[u64]) -> u64
    requires count { length rules.now ≤ 13 }
    requires few { All (λ n. n ≤ 16777216) rules.now }
    ensures { result ≡ sum rules.now }
{
    let mut steps = 0;
    for n in rules {
        steps += *n;
    }
    steps
}

/// The lines of the counts.
pub fn counts_text(alloc: Global, counts: &Counts) -> Result<Vec<u8>, AllocError>
    requires { AreFew 16777216 counts.now }
    ensures { IfOk result (λ text. text.items ≡ counts_lines counts.now) }
{
    let mut text = Vec::new(alloc);
    let nodes = counts.closed + counts.branched + counts.left;
    put_count(alloc, &mut text, "nodes", nodes)?;
    put_count(alloc, &mut text, "closed", counts.closed)?;
    put_count(alloc, &mut text, "branched", counts.branched)?;
    put_count(alloc, &mut text, "open", counts.left)?;
    put_count(alloc, &mut text, "steps", steps_of(&counts.rules))?;
    let rules = rules_text(alloc, &counts.rules)?;
    text.extend_from_slice(&rules)?;
    Ok(text)
}
