//! Texts that are tasks, and texts that are none.

use crate::scene::{TASK, tasks_are};
use cpt_json::JsonTaskError;
use std::test::Fail;

#[test]
fn tasks_in_any_spelling(rt: HostRuntime) -> Result<(), Fail> {
    tasks_are(
        &rt,
        rt.alloc(),
        None,
        &[
            TASK,
            "{\"actions\":[],\"atoms\":[],\"goal\":[],\"init\":[]}",
            // Keys in any order, blanks, and escapes in names and keys.
            "{\"init\":[],\"goal\":[],\"atoms\":[],\"actions\":[]}",
            " {\t\"actions\" : [ ] ,\n\"atoms\":[\"(a)\" , \"(b)\"],\"goal\":[0, 1],\"init\":[ ]}\r\n",
            "{\"actions\":[],\"atoms\":[\"\\u0028a\\u0029\"],\"\\u0067oal\":[0],\"init\":[]}",
            // Of a repeated key the last counts.
            "{\"atoms\":[\"(A)\"],\"actions\":[],\"atoms\":[\"(a)\"],\"goal\":[7],\"goal\":[0],\"init\":[]}",
        ],
    );
    Ok(())
}

#[test]
fn texts_that_are_no_json(rt: HostRuntime) -> Result<(), Fail> {
    tasks_are(
        &rt,
        rt.alloc(),
        Some(JsonTaskError::Syntax),
        &[
            "",
            " ",
            "nul",
            "{",
            "[1,]",
            "[] []",
            "01",
            "1e999",
            "\u{feff}{\"actions\":[],\"atoms\":[],\"goal\":[],\"init\":[]}",
            "{\"actions\":[],\"atoms\":[],\"goal\":[],\"init\":[]",
            // 128 groups inside one another.
            "[[[[[[[[[[[[[[[[[[[[[[[[[[[[[[[[[[[[[[[[[[[[[[[[[[[[[[[[[[[[[[[[[[[[[[[[[[[[[[[[[[[[[[[[[[[[[[[[[[[[[[[[[[[[[[[[[[[[[[[[[[[[[[[[]]]]]]]]]]]]]]]]]]]]]]]]]]]]]]]]]]]]]]]]]]]]]]]]]]]]]]]]]]]]]]]]]]]]]]]]]]]]]]]]]]]]]]]]]]]]]]]]]]]]]]]]]]]]]]]]]]]]]]]]]]]]]]]]",
        ],
    );
    Ok(())
}

#[test]
fn values_of_another_form(rt: HostRuntime) -> Result<(), Fail> {
    tasks_are(
        &rt,
        rt.alloc(),
        Some(JsonTaskError::Shape),
        &[
            "null",
            "[]",
            "{}",
            "{\"actions\":[],\"atoms\":[],\"goal\":[]}",
            "{\"actions\":[],\"atoms\":[],\"goal\":[],\"init\":[],\"note\":1}",
            "{\"actions\":[],\"atoms\":[],\"goal\":[],\"init\":{}}",
            "{\"actions\":[],\"atoms\":[7],\"goal\":[],\"init\":[]}",
            // Numbers that are not given as whole numbers of 64 bits.
            "{\"actions\":[],\"atoms\":[],\"goal\":[1.0],\"init\":[]}",
            "{\"actions\":[],\"atoms\":[],\"goal\":[1e3],\"init\":[]}",
            "{\"actions\":[],\"atoms\":[],\"goal\":[-0],\"init\":[]}",
            "{\"actions\":[],\"atoms\":[],\"goal\":[-1],\"init\":[]}",
            "{\"actions\":[],\"atoms\":[],\"goal\":[18446744073709551616],\"init\":[]}",
            // An action that lacks a key, and one that has another.
            "{\"actions\":[{\"add\":[],\"del\":[],\"dur\":1,\"name\":\"(a)\"}],\"atoms\":[],\"goal\":[],\"init\":[]}",
            "{\"actions\":[{\"add\":[],\"cost\":0,\"del\":[],\"dur\":1,\"name\":\"(a)\",\"pre\":[]}],\"atoms\":[],\"goal\":[],\"init\":[]}",
            // 127 groups inside one another.
            "[[[[[[[[[[[[[[[[[[[[[[[[[[[[[[[[[[[[[[[[[[[[[[[[[[[[[[[[[[[[[[[[[[[[[[[[[[[[[[[[[[[[[[[[[[[[[[[[[[[[[[[[[[[[[[[[[[[[[[[[[[[[[[[]]]]]]]]]]]]]]]]]]]]]]]]]]]]]]]]]]]]]]]]]]]]]]]]]]]]]]]]]]]]]]]]]]]]]]]]]]]]]]]]]]]]]]]]]]]]]]]]]]]]]]]]]]]]]]]]]]]]]]]]]]]]]]]",
        ],
    );
    Ok(())
}

#[test]
fn names_that_are_none(rt: HostRuntime) -> Result<(), Fail> {
    tasks_are(
        &rt,
        rt.alloc(),
        Some(JsonTaskError::BadName),
        &[
            "{\"actions\":[],\"atoms\":[\"(A)\"],\"goal\":[],\"init\":[]}",
            "{\"actions\":[],\"atoms\":[\"()\"],\"goal\":[],\"init\":[]}",
            "{\"actions\":[],\"atoms\":[\"\"],\"goal\":[],\"init\":[]}",
            "{\"actions\":[],\"atoms\":[\"(a)\",\"(\\u0061)\"],\"goal\":[],\"init\":[]}",
            "{\"actions\":[{\"add\":[],\"del\":[],\"dur\":1,\"name\":\"a\",\"pre\":[]}],\"atoms\":[],\"goal\":[],\"init\":[]}",
            "{\"actions\":[{\"add\":[],\"del\":[],\"dur\":1,\"name\":\"(a  b)\",\"pre\":[]}],\"atoms\":[],\"goal\":[],\"init\":[]}",
            "{\"actions\":[{\"add\":[],\"del\":[],\"dur\":1,\"name\":\"(a)\",\"pre\":[]},{\"add\":[],\"del\":[],\"dur\":2,\"name\":\"(a)\",\"pre\":[]}],\"atoms\":[],\"goal\":[],\"init\":[]}",
        ],
    );
    Ok(())
}

#[test]
fn numbers_that_are_no_atoms(rt: HostRuntime) -> Result<(), Fail> {
    tasks_are(
        &rt,
        rt.alloc(),
        Some(JsonTaskError::Atom),
        &[
            "{\"actions\":[],\"atoms\":[\"(a)\"],\"goal\":[1],\"init\":[]}",
            "{\"actions\":[],\"atoms\":[\"(a)\",\"(b)\"],\"goal\":[],\"init\":[1,0]}",
            "{\"actions\":[],\"atoms\":[\"(a)\"],\"goal\":[0,0],\"init\":[]}",
            "{\"actions\":[],\"atoms\":[],\"goal\":[18446744073709551615],\"init\":[]}",
            "{\"actions\":[],\"atoms\":[\"(a)\"],\"goal\":[4294967296],\"init\":[]}",
            "{\"actions\":[{\"add\":[0],\"del\":[],\"dur\":1,\"name\":\"(a)\",\"pre\":[]}],\"atoms\":[],\"goal\":[],\"init\":[]}",
            "{\"actions\":[{\"add\":[],\"del\":[],\"dur\":1,\"name\":\"(a)\",\"pre\":[0,0]}],\"atoms\":[\"(a)\"],\"goal\":[],\"init\":[]}",
            "{\"actions\":[{\"add\":[],\"del\":[1],\"dur\":1,\"name\":\"(a)\",\"pre\":[]}],\"atoms\":[\"(a)\"],\"goal\":[],\"init\":[]}",
        ],
    );
    Ok(())
}

#[test]
fn durations_out_of_bounds(rt: HostRuntime) -> Result<(), Fail> {
    tasks_are(
        &rt,
        rt.alloc(),
        Some(JsonTaskError::Duration),
        &[
            "{\"actions\":[{\"add\":[],\"del\":[],\"dur\":0,\"name\":\"(a)\",\"pre\":[]}],\"atoms\":[],\"goal\":[],\"init\":[]}",
            "{\"actions\":[{\"add\":[],\"del\":[],\"dur\":100001,\"name\":\"(a)\",\"pre\":[]}],\"atoms\":[],\"goal\":[],\"init\":[]}",
            "{\"actions\":[{\"add\":[],\"del\":[],\"dur\":4294967297,\"name\":\"(a)\",\"pre\":[]}],\"atoms\":[],\"goal\":[],\"init\":[]}",
        ],
    );
    Ok(())
}
