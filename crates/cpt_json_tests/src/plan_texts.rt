//! Texts that are plans, and texts that are none.

use crate::scene::{TASK, plans_are};
use cpt_json::JsonPlanError;
use cpt_task::Limit;
use std::test::Fail;

#[test]
fn plans_in_any_spelling(rt: HostRuntime) -> Result<(), Fail> {
    plans_are(
        &rt,
        rt.alloc(),
        None,
        &[
            "[]",
            "[{\"name\":\"(a)\",\"start\":0},{\"name\":\"(b)\",\"start\":5}]",
            "[ {\"start\":1000000000, \"dur\":5, \"name\":\"\\u0028a)\"} ]\n",
            "[{\"name\":\"(z)\",\"start\":0,\"name\":\"(a)\"}]",
        ],
    )
}

#[test]
fn plans_that_are_no_json(rt: HostRuntime) -> Result<(), Fail> {
    plans_are(
        &rt,
        rt.alloc(),
        Some(JsonPlanError::Syntax),
        &[
            "",
            "[",
            "\u{feff}[]",
            // Whatever else is wrong.
            "[{\"name\":\"(a)\"}",
            "[{\"name\":\"(z)\",\"start\":0}",
            "[{\"name\":\"(a)\",\"start\":1000000001}",
            "[{\"dur\":4,\"name\":\"(a)\",\"start\":0}",
        ],
    )
}

#[test]
fn values_that_are_no_plans(rt: HostRuntime) -> Result<(), Fail> {
    plans_are(
        &rt,
        rt.alloc(),
        Some(JsonPlanError::Shape),
        &[
            "{}",
            "[{}]",
            "[{\"name\":\"(a)\"}]",
            "[{\"name\":\"(a)\",\"start\":1.0}]",
            "[{\"name\":\"(a)\",\"start\":1e3}]",
            "[{\"name\":\"(a)\",\"start\":-0}]",
            "[{\"name\":\"(a)\",\"start\":18446744073709551616}]",
            "[{\"dur\":null,\"name\":\"(a)\",\"start\":0}]",
            "[{\"at\":0,\"name\":\"(a)\",\"start\":0}]",
            // Whatever else is wrong.
            "[{\"name\":\"(z)\",\"start\":0},{\"name\":\"(a)\",\"start\":-1}]",
            "[{\"name\":\"(a)\",\"start\":1000000001},{}]",
            "[{\"dur\":4,\"name\":\"(a)\",\"start\":0},{}]",
        ],
    )
}

#[test]
fn names_that_are_of_no_action(rt: HostRuntime) -> Result<(), Fail> {
    plans_are(
        &rt,
        rt.alloc(),
        Some(JsonPlanError::Unknown(1)),
        &[
            "[{\"name\":\"(a)\",\"start\":0},{\"name\":\"(z)\",\"start\":5}]",
            // Names are compared byte by byte.
            "[{\"name\":\"(a)\",\"start\":0},{\"name\":\"(B)\",\"start\":5},{\"name\":\"(z)\",\"start\":5}]",
            "[{\"name\":\"(a)\",\"start\":0},{\"name\":\"( b )\",\"start\":5}]",
            // Whatever the starts and the durations.
            "[{\"name\":\"(a)\",\"start\":1000000001},{\"name\":\"(z)\",\"start\":5}]",
            "[{\"dur\":4,\"name\":\"(a)\",\"start\":0},{\"name\":\"(z)\",\"start\":5}]",
        ],
    )
}

#[test]
fn starts_above_the_limit(rt: HostRuntime) -> Result<(), Fail> {
    plans_are(
        &rt,
        rt.alloc(),
        Some(JsonPlanError::Limit(Limit::Start)),
        &[
            "[{\"name\":\"(a)\",\"start\":1000000001}]",
            "[{\"name\":\"(a)\",\"start\":0},{\"name\":\"(b)\",\"start\":18446744073709551615}]",
            // Whatever the durations.
            "[{\"dur\":4,\"name\":\"(a)\",\"start\":0},{\"name\":\"(b)\",\"start\":1000000001}]",
        ],
    )
}

#[test]
fn durations_of_other_actions(rt: HostRuntime) -> Result<(), Fail> {
    plans_are(
        &rt,
        rt.alloc(),
        Some(JsonPlanError::Duration(1, 3)),
        &[
            "[{\"name\":\"(a)\",\"start\":0},{\"dur\":4,\"name\":\"(b)\",\"start\":5}]",
            "[{\"dur\":5,\"name\":\"(a)\",\"start\":0},{\"dur\":0,\"name\":\"(b)\",\"start\":5},{\"dur\":4,\"name\":\"(a)\",\"start\":5}]",
            "[{\"name\":\"(a)\",\"start\":0},{\"dur\":4294967299,\"name\":\"(b)\",\"start\":5}]",
        ],
    )
}
