//! Words that ask for no command.

use crate::scene::{Case, expect};
use std::alloc::Global;
use std::process::Abort;
use std::test::Fail;

const LISTS: &[&[&str]] = &[
    &[],
    &["validate-task"],
    &["validate-task", "t"],
    &["validate-task", "t", "p", "q"],
    &["validate-task", "", "p"],
    &["validate-task", "t", "-p"],
    &["Validate-task", "t", "p"],
    &["plan", "t", "p"],
    &["ground"],
    &["ground", "t"],
    &["ground", "t", "p", "q"],
    &["ground", "t", "-p"],
    &["validate", "t", "p"],
    &["validate", "t", "p", ""],
    &["validate", "-t", "p", "q"],
    &["validate", "t", "p", "p", "p"],
    &["check", "t", "p"],
    &["check", "t", "p", "p", "p"],
    &["check", "t", "p", ""],
    &["check", "-t", "p", "p"],
    &["check", "t", "-p", "p"],
    &["solve", "t"],
    &["solve", "--max", "5", "t", "p"],
    &["solve", "t", "p", "--max"],
    &["solve", "t", "p", "--max", "007"],
    &["solve", "t", "p", "--max", "+7"],
    &["solve", "t", "p", "--max", "1000001"],
    &["solve", "t", "p", "--nodes", "0"],
    &["solve", "t", "p", "--nodes", "4000000001"],
    &["solve", "t", "p", "--max", "5", "--max", "5"],
    &["solve", "t", "p", "--cert", "1"],
    &["--help"],
];

fn expect_usage<'a>(rt: &impl Abort, alloc: Global, words: &'a [&'a str]) -> Result<(), Fail> {
    let case = Case {
        words,
        files: &[("t", "task 0 0\ninit\ngoal\n"), ("p", "")],
        status: 5,
        text: "fault: usage\n",
    };
    expect(rt, alloc, &case, 1)
}

fn expect_usages(rt: &impl Abort, alloc: Global, lists: &[&[&str]]) -> Result<(), Fail> {
    for words in lists {
        expect_usage(rt, alloc, words)?;
    }
    Ok(())
}

#[test]
fn words_that_ask_for_no_command_are_usage(rt: HostRuntime) -> Result<(), Fail> {
    expect_usages(&rt, rt.alloc(), LISTS)
}
