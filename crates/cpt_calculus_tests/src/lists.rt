//! Steps that drop candidates: rules 5, 7, 8 and 13.

use crate::edits::Edit::{Bring, Hi, Lo, Post, Take};
use crate::moments::{SPENDER_FIRST, WORKSHOP};
use crate::posts::SHARED;
use crate::scene::Scene;
use crate::steps::Line::{R5, R7, R8, R13};
use crate::steps::{Row, expect_steps};
use cpt_calculus::Cand::{Out, Tok};
use cpt_task::Span::{At, Never};
use std::test::Fail;

const TOO_LATE: &[Row] = &[
    (&[Hi(Tok(2), 0)], R5(2, 0, Tok(4)), true),
    (&[Hi(Tok(2), 1)], R5(2, 0, Tok(4)), false),
    (&[Lo(Out(0), At(7))], R5(3, 0, Out(0)), true),
    (&[Lo(Out(0), At(6))], R5(3, 0, Out(0)), false),
    (&[Lo(Out(0), Never)], R5(3, 0, Out(0)), true),
    // By an order alone.
    (&[Post(3, 4)], R5(3, 0, Tok(4)), true),
    (&[Post(4, 3)], R5(3, 0, Tok(4)), false),
    // Not in the list, or no precondition, or no such token.
    (&[Hi(Tok(2), 0)], R5(2, 0, Out(0)), false),
    (&[Hi(Tok(2), 0)], R5(2, 1, Tok(4)), false),
    (&[], R5(9, 0, Tok(4)), false),
];

#[test]
fn a_candidate_that_is_too_late_is_dropped(rt: HostRuntime) -> Result<(), Fail> {
    expect_steps(&rt, rt.alloc(), &WORKSHOP, TOO_LATE)
}

const NOT_LIVE: &[Row] = &[
    (&[Lo(Out(0), At(10))], R7(3, 0, 0), true),
    (&[Lo(Out(0), Never)], R7(3, 0, 0), true),
    (&[Lo(Out(0), At(9))], R7(3, 0, 0), false),
    // Not in the list, or no precondition.
    (&[Lo(Out(0), At(10))], R7(2, 0, 0), false),
    (
        &[Lo(Out(0), At(10)), Take(3, 0, Out(0))],
        R7(3, 0, 0),
        false,
    ),
    (&[Lo(Out(0), At(10))], R7(3, 1, 0), false),
    (&[], R7(3, 0, 9), false),
];

#[test]
fn an_outside_action_without_a_moment_is_dropped(rt: HostRuntime) -> Result<(), Fail> {
    expect_steps(&rt, rt.alloc(), &WORKSHOP, NOT_LIVE)
}

// Token 3 begins at 3 and ends at 6: token 4 begins by 5, and token 2 ends at 4 or later.
const BETWEEN: &[Row] = &[
    (
        &[
            Lo(Tok(3), At(3)),
            Hi(Tok(3), 3),
            Hi(Tok(4), 5),
            Lo(Tok(2), At(2)),
        ],
        R8(2, 0, Tok(4), 3),
        true,
    ),
    // It can come before token 4, or after token 2.
    (
        &[
            Lo(Tok(3), At(3)),
            Hi(Tok(3), 3),
            Hi(Tok(4), 6),
            Lo(Tok(2), At(2)),
        ],
        R8(2, 0, Tok(4), 3),
        false,
    ),
    (
        &[
            Lo(Tok(3), At(3)),
            Hi(Tok(3), 3),
            Hi(Tok(4), 5),
            Lo(Tok(2), At(1)),
        ],
        R8(2, 0, Tok(4), 3),
        false,
    ),
    // The candidate is not in the list.
    (
        &[
            Lo(Tok(3), At(3)),
            Hi(Tok(3), 3),
            Hi(Out(0), 5),
            Lo(Tok(2), At(2)),
        ],
        R8(2, 0, Out(0), 3),
        false,
    ),
    // The deleter is the token itself.
    (
        &[
            Lo(Tok(3), At(3)),
            Hi(Tok(3), 3),
            Hi(Tok(4), 5),
            Lo(Tok(2), At(2)),
        ],
        R8(3, 0, Tok(4), 3),
        false,
    ),
    // The end deletes nothing.
    (
        &[Lo(Tok(2), At(2)), Hi(Tok(1), 3)],
        R8(2, 0, Tok(4), 1),
        false,
    ),
    // By two orders, and by one of them.
    (&[Post(4, 3), Post(3, 2)], R8(2, 0, Tok(4), 3), true),
    (&[Post(4, 3)], R8(2, 0, Tok(4), 3), false),
    (&[Post(3, 2)], R8(2, 0, Tok(4), 3), false),
    (&[Post(4, 3), Post(3, 2)], R8(2, 1, Tok(4), 3), false),
    (&[Post(4, 3), Post(3, 2)], R8(2, 0, Tok(4), 9), false),
];

// The candidate is an outside action.
const BETWEEN_OUTSIDE: &[Row] = &[
    (
        &[
            Lo(Tok(3), At(3)),
            Hi(Tok(3), 3),
            Hi(Out(0), 5),
            Lo(Tok(2), At(2)),
        ],
        R8(2, 0, Out(0), 3),
        true,
    ),
    (
        &[
            Lo(Tok(3), At(3)),
            Hi(Tok(3), 3),
            Hi(Out(0), 6),
            Lo(Tok(2), At(2)),
        ],
        R8(2, 0, Out(0), 3),
        false,
    ),
    // Token 4 comes before token 3 by an order.
    (&[Hi(Tok(3), 1)], R8(2, 0, Tok(4), 3), true),
    (&[], R8(2, 0, Tok(4), 3), false),
];

// The deleter is the candidate.
const BETWEEN_ITSELF: &[Row] = &[(&[Hi(Tok(2), 1)], R8(3, 0, Tok(2), 2), false)];

#[test]
fn a_candidate_behind_a_deleter_is_dropped(rt: HostRuntime) -> Result<(), Fail> {
    expect_steps(&rt, rt.alloc(), &WORKSHOP, BETWEEN)?;
    expect_steps(&rt, rt.alloc(), &SPENDER_FIRST, BETWEEN_OUTSIDE)?;
    expect_steps(&rt, rt.alloc(), &SHARED, BETWEEN_ITSELF)
}

/// Action 0 adds the key, and each of the others needs and deletes it and adds an atom of the goal.
pub const KEY: Scene = Scene {
    atoms: 3,
    actions: &[
        (1, &[], &[0], &[]),
        (2, &[0], &[1], &[0]),
        (2, &[0], &[2], &[0]),
    ],
    init: &[],
    goal: &[1, 2],
    never: &[],
    bound: 3,
    edits: &[],
};

/// The same, with an action 3 that adds the second atom of the goal and disturbs nobody.
const KEY_OR_NONE: Scene = Scene {
    actions: &[
        (1, &[], &[0], &[]),
        (2, &[0], &[1], &[0]),
        (2, &[0], &[2], &[0]),
        (1, &[], &[2], &[]),
    ],
    ..KEY
};

/// Each of the two actions adds what the other deletes.
const SWITCHES: Scene = Scene {
    atoms: 2,
    actions: &[(1, &[], &[0], &[1]), (1, &[], &[1], &[0])],
    init: &[],
    goal: &[0, 1],
    never: &[],
    bound: 5,
    edits: &[],
};

/// Only the first deletes what the other adds.
const ONE_SWITCH: Scene = Scene {
    actions: &[(1, &[], &[0], &[1]), (1, &[], &[1], &[])],
    ..SWITCHES
};

/// One action, which cannot come before itself, adds all of the goal.
const BOTH_AT_ONCE: Scene = Scene {
    atoms: 3,
    actions: &[(2, &[0], &[1, 2], &[0])],
    init: &[0],
    goal: &[1, 2],
    never: &[],
    bound: 2,
    edits: &[],
};

/// Two tokens of that action, one for each atom.
const ONE_EACH: Scene = Scene {
    bound: 4,
    edits: &[Bring(1, 1, 0), Bring(1, 2, 0)],
    ..BOTH_AT_ONCE
};

const BESIDE: &[Row] = &[
    (&[], R13(1, 1, Out(1), 2), true),
    (&[], R13(1, 2, Out(2), 1), true),
    // One of the two can come first.
    (&[Hi(Out(2), 2)], R13(1, 1, Out(1), 2), false),
    (&[Hi(Out(1), 2)], R13(1, 1, Out(1), 2), false),
    // Not in the list.
    (&[Hi(Out(2), 0), Hi(Out(0), 1)], R13(1, 1, Out(0), 2), false),
    // No precondition, or no other one.
    (&[], R13(1, 1, Out(1), 0), false),
    (&[], R13(1, 0, Out(1), 2), false),
    (&[], R13(1, 1, Out(1), 1), false),
];

const BESIDE_ANOTHER: &[Row] = &[
    (&[], R13(1, 1, Out(1), 2), false),
    (&[Take(1, 2, Out(3))], R13(1, 1, Out(1), 2), true),
];

const BESIDE_DELETERS: &[Row] = &[
    (&[], R13(1, 0, Out(0), 1), true),
    (&[], R13(1, 1, Out(1), 0), true),
];

const BESIDE_ONE_DELETER: &[Row] = &[
    (&[], R13(1, 0, Out(0), 1), false),
    (&[], R13(1, 1, Out(1), 0), false),
];

const BESIDE_ITSELF: &[Row] = &[(&[], R13(1, 1, Out(0), 2), false)];

const BESIDE_TOKENS: &[Row] = &[
    (&[], R13(1, 1, Tok(2), 2), false),
    (&[Hi(Tok(3), 1)], R13(1, 1, Tok(2), 2), false),
    (&[Hi(Tok(2), 1), Hi(Tok(3), 1)], R13(1, 1, Tok(2), 2), true),
    (&[Hi(Tok(3), 1), Post(2, 3)], R13(1, 1, Tok(2), 2), true),
];

#[test]
fn a_candidate_that_goes_with_no_other_is_dropped(rt: HostRuntime) -> Result<(), Fail> {
    expect_steps(&rt, rt.alloc(), &KEY, BESIDE)?;
    expect_steps(&rt, rt.alloc(), &KEY_OR_NONE, BESIDE_ANOTHER)?;
    expect_steps(&rt, rt.alloc(), &SWITCHES, BESIDE_DELETERS)?;
    expect_steps(&rt, rt.alloc(), &ONE_SWITCH, BESIDE_ONE_DELETER)?;
    expect_steps(&rt, rt.alloc(), &BOTH_AT_ONCE, BESIDE_ITSELF)?;
    expect_steps(&rt, rt.alloc(), &ONE_EACH, BESIDE_TOKENS)
}
