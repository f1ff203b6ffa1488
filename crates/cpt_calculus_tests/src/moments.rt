//! Steps that change intervals: rules 1, 2, 4, 10, 11 and 12.

use crate::edits::Edit::{Bring, Hi, Lo, Post, Take};
use crate::scene::Scene;
use crate::steps::Line::{R1, R2, R4, R10, R11After, R11Ahead, R12After, R12Ahead};
use crate::steps::{Row, expect_steps};
use cpt_calculus::Cand::{Out, Tok};
use cpt_task::Span::{At, Never};
use std::test::Fail;

/// Atom 0 is made by action 0, used by action 1, which adds atom 1, and spent by action 2, which adds atom 2.
/// Tokens 2, 3 and 4 use, spend and make: token 4 makes for token 2, and it or another may make for token 3.
pub const WORKSHOP: Scene = Scene {
    atoms: 3,
    actions: &[
        (1, &[], &[0], &[]),
        (2, &[0], &[1], &[]),
        (3, &[0], &[2], &[0]),
    ],
    init: &[],
    goal: &[1, 2],
    never: &[],
    bound: 10,
    edits: &[Bring(1, 1, 1), Bring(1, 2, 2), Bring(2, 0, 0)],
};

/// The same, but token 4 makes for token 3, and it or another may make for token 2.
pub const SPENDER_FIRST: Scene = Scene {
    edits: &[Bring(1, 1, 1), Bring(1, 2, 2), Bring(3, 0, 0)],
    ..WORKSHOP
};

/// The workshop at its root.
const NOBODY: Scene = Scene {
    edits: &[],
    ..WORKSHOP
};

/// The workshop, where atom 0 never holds after action 0 or action 1, by the distance table.
const NEVER_AGAIN: Scene = Scene {
    never: &[(0, 0), (1, 0)],
    ..WORKSHOP
};

/// Action 0 adds the key that action 1 needs to add the goal.
const KEY_FIRST: Scene = Scene {
    atoms: 2,
    actions: &[(1, &[], &[0], &[]), (2, &[0], &[1], &[])],
    init: &[],
    goal: &[1],
    never: &[],
    bound: 2,
    edits: &[],
};

/// Action 1 needs, deletes and adds atom 0.
const RETURNER: Scene = Scene {
    atoms: 2,
    actions: &[(5, &[], &[0], &[]), (2, &[0], &[0, 1], &[0])],
    init: &[],
    goal: &[1],
    never: &[],
    bound: 20,
    edits: &[],
};

const AFTER_ORDERS: &[Row] = &[
    (&[], R1(2, 1, At(2)), true),
    (&[], R1(2, 1, At(1)), true),
    (&[], R1(2, 1, At(3)), false),
    (&[], R1(2, 1, At(0)), false),
    (&[], R1(2, 1, Never), false),
    (&[], R1(4, 2, At(1)), true),
    (&[], R1(4, 2, At(2)), false),
    // No such order, or no such token.
    (&[], R1(2, 4, At(1)), false),
    (&[], R1(2, 9, At(1)), false),
    (&[], R1(9, 1, At(1)), false),
    // Nothing comes after the end, and a finite moment keeps below its bound.
    (&[Post(1, 2)], R1(1, 2, Never), true),
    (&[Post(1, 2)], R1(1, 2, At(3_999_999_999_999_999)), true),
    (&[Post(1, 2)], R1(1, 2, At(4_000_000_000_000_000)), false),
];

#[test]
fn a_token_begins_after_those_before_it(rt: HostRuntime) -> Result<(), Fail> {
    expect_steps(&rt, rt.alloc(), &WORKSHOP, AFTER_ORDERS)
}

const BEFORE_ORDERS: &[Row] = &[
    (&[Hi(Tok(1), 5)], R2(2, 1, At(3)), true),
    (&[Hi(Tok(1), 5)], R2(2, 1, At(4)), true),
    (&[Hi(Tok(1), 5)], R2(2, 1, At(2)), false),
    (&[Hi(Tok(1), 5)], R2(2, 1, At(8)), false),
    (&[Hi(Tok(1), 5)], R2(2, 1, Never), false),
    (&[], R2(2, 1, At(8)), false),
    (&[], R2(4, 2, At(7)), true),
    (&[], R2(4, 2, At(6)), false),
    (&[], R2(4, 2, At(9)), false),
    // No such order, or no such token.
    (&[], R2(2, 4, At(7)), false),
    (&[], R2(9, 1, At(0)), false),
    // A gap beyond the last moment leaves moment 0.
    (&[Hi(Tok(2), 0)], R2(4, 2, At(0)), true),
    (&[Post(1, 2)], R2(1, 2, At(0)), true),
];

#[test]
fn a_token_begins_early_enough_for_those_after_it(rt: HostRuntime) -> Result<(), Fail> {
    expect_steps(&rt, rt.alloc(), &WORKSHOP, BEFORE_ORDERS)
}

const AFTER_ADDERS: &[Row] = &[
    (&[], R4(2, 0, At(1)), true),
    (&[], R4(2, 0, At(2)), false),
    (&[], R4(2, 0, At(0)), false),
    (&[Lo(Tok(4), At(3))], R4(2, 0, At(4)), true),
    (&[Lo(Tok(4), At(3))], R4(2, 0, At(2)), true),
    (&[Lo(Tok(4), At(3))], R4(2, 0, At(5)), false),
    // The outside action comes sooner than the token.
    (&[Lo(Tok(4), At(3))], R4(3, 0, At(1)), true),
    (&[Lo(Tok(4), At(3))], R4(3, 0, At(2)), false),
    // No precondition of the token, or no such token.
    (&[], R4(2, 1, At(1)), false),
    (&[], R4(4, 0, At(1)), false),
    (&[], R4(9, 0, At(1)), false),
];

const NEVER_AFTER_ADDERS: &[Row] = &[
    (&[], R4(2, 0, Never), true),
    (&[], R4(2, 0, At(3_999_999_999_999_999)), true),
    (&[], R4(2, 0, At(4_000_000_000_000_000)), false),
];

const END_AFTER_ADDERS: &[Row] = &[(&[], R4(1, 1, At(2)), true), (&[], R4(1, 1, At(3)), false)];

#[test]
fn a_token_begins_after_who_adds_for_it(rt: HostRuntime) -> Result<(), Fail> {
    expect_steps(&rt, rt.alloc(), &WORKSHOP, AFTER_ADDERS)?;
    expect_steps(&rt, rt.alloc(), &NEVER_AGAIN, NEVER_AFTER_ADDERS)?;
    expect_steps(&rt, rt.alloc(), &KEY_FIRST, END_AFTER_ADDERS)
}

const OUTSIDE_AFTER_ADDERS: &[Row] = &[
    (&[], R10(1, 0, At(1)), true),
    (&[], R10(1, 0, At(2)), false),
    (&[], R10(1, 0, At(0)), false),
    (&[], R10(1, 0, Never), false),
    // The least of a token at 3 and an outside action at 5.
    (
        &[Lo(Tok(4), At(3)), Lo(Out(0), At(5))],
        R10(1, 0, At(4)),
        true,
    ),
    (
        &[Lo(Tok(4), At(3)), Lo(Out(0), At(5))],
        R10(1, 0, At(3)),
        true,
    ),
    (
        &[Lo(Tok(4), At(3)), Lo(Out(0), At(5))],
        R10(1, 0, At(5)),
        false,
    ),
    // A dead outside action adds nothing.
    (
        &[Lo(Tok(4), At(5)), Lo(Out(0), At(2)), Hi(Out(0), 1)],
        R10(1, 0, At(6)),
        true,
    ),
    (
        &[Lo(Tok(4), At(5)), Lo(Out(0), At(2)), Hi(Out(0), 1)],
        R10(1, 0, At(7)),
        false,
    ),
    // No precondition of the action, or no such action.
    (&[], R10(1, 1, At(1)), false),
    (&[], R10(0, 0, At(1)), false),
    (&[], R10(9, 0, At(1)), false),
];

// Where none adds the atom.
const OUTSIDE_WITHOUT_ADDERS: &[Row] = &[
    (&[Lo(Out(0), At(10))], R10(1, 0, Never), true),
    (
        &[Lo(Out(0), At(10))],
        R10(1, 0, At(1_999_999_999_999_999)),
        true,
    ),
    (
        &[Lo(Out(0), At(10))],
        R10(1, 0, At(2_000_000_000_000_000)),
        false,
    ),
    (&[], R10(1, 0, Never), false),
];

// The action adds for itself, where it is live.
const OUTSIDE_BY_ITSELF: &[Row] = &[
    (&[], R10(1, 0, At(2)), true),
    (&[], R10(1, 0, At(1)), true),
    (&[], R10(1, 0, At(3)), false),
    (&[Lo(Out(1), At(2))], R10(1, 0, At(4)), true),
    (&[Lo(Out(1), At(2))], R10(1, 0, At(5)), false),
    (
        &[Lo(Out(0), At(5)), Lo(Out(1), At(3)), Hi(Out(1), 2)],
        R10(1, 0, At(10)),
        true,
    ),
    (
        &[Lo(Out(0), At(5)), Lo(Out(1), At(3)), Hi(Out(1), 2)],
        R10(1, 0, At(11)),
        false,
    ),
];

#[test]
fn an_outside_action_begins_after_who_adds_for_it(rt: HostRuntime) -> Result<(), Fail> {
    expect_steps(&rt, rt.alloc(), &WORKSHOP, OUTSIDE_AFTER_ADDERS)?;
    expect_steps(&rt, rt.alloc(), &NOBODY, OUTSIDE_WITHOUT_ADDERS)?;
    expect_steps(&rt, rt.alloc(), &RETURNER, OUTSIDE_BY_ITSELF)
}

const SPENT_AFTER: &[Row] = &[
    (&[Hi(Tok(4), 2)], R11After(2, 0, 2, At(2)), true),
    (&[Hi(Tok(4), 2)], R11After(2, 0, 2, At(1)), true),
    (&[Hi(Tok(4), 2)], R11After(2, 0, 2, At(3)), false),
    (&[Hi(Tok(4), 2)], R11After(2, 0, 2, At(0)), false),
    // It can come before token 4.
    (&[Hi(Tok(4), 3)], R11After(2, 0, 2, At(2)), false),
    // It deletes nothing, or is not there, or the token does not need the atom.
    (&[Hi(Tok(4), 1)], R11After(2, 0, 1, At(2)), false),
    (&[Hi(Tok(4), 2)], R11After(2, 0, 9, At(2)), false),
    (&[Hi(Tok(4), 2)], R11After(2, 1, 2, At(2)), false),
    // It may be dead.
    (
        &[Lo(Out(2), At(8)), Lo(Tok(2), At(8))],
        R11After(2, 0, 2, At(10)),
        true,
    ),
    (
        &[Lo(Out(2), At(8)), Lo(Tok(2), At(8))],
        R11After(2, 0, 2, At(11)),
        false,
    ),
];

// The list is not one token for token 2, and is for token 3.
const SPENT_AFTER_MANY: &[Row] = &[
    (&[Hi(Tok(4), 2)], R11After(2, 0, 2, At(2)), false),
    (
        &[Hi(Tok(4), 2), Take(2, 0, Tok(4))],
        R11After(2, 0, 2, At(2)),
        false,
    ),
    (
        &[Hi(Tok(4), 2), Take(2, 0, Out(0))],
        R11After(2, 0, 2, At(2)),
        true,
    ),
    (&[Hi(Tok(4), 2)], R11After(3, 0, 2, At(3)), true),
    (&[Hi(Tok(4), 2)], R11After(3, 0, 2, At(4)), false),
];

const NEVER_SPENT_AFTER: &[Row] = &[
    (&[Hi(Tok(4), 2)], R11After(2, 0, 2, Never), true),
    (
        &[Hi(Tok(4), 2)],
        R11After(2, 0, 2, At(1_999_999_999_999_999)),
        true,
    ),
    (
        &[Hi(Tok(4), 2)],
        R11After(2, 0, 2, At(2_000_000_000_000_000)),
        false,
    ),
];

#[test]
fn an_outside_deleter_comes_after_who_needs(rt: HostRuntime) -> Result<(), Fail> {
    expect_steps(&rt, rt.alloc(), &WORKSHOP, SPENT_AFTER)?;
    expect_steps(&rt, rt.alloc(), &SPENDER_FIRST, SPENT_AFTER_MANY)?;
    expect_steps(&rt, rt.alloc(), &NEVER_AGAIN, NEVER_SPENT_AFTER)
}

const SPENT_AHEAD: &[Row] = &[
    (&[Lo(Tok(2), At(6))], R11Ahead(2, 0, 2, At(6)), true),
    (&[Lo(Tok(2), At(6))], R11Ahead(2, 0, 2, At(5)), false),
    (&[Lo(Tok(2), At(6))], R11Ahead(2, 0, 2, At(7)), false),
    (
        &[Lo(Tok(2), At(6)), Hi(Tok(4), 8)],
        R11Ahead(2, 0, 2, At(5)),
        true,
    ),
    (
        &[Lo(Tok(2), At(6)), Hi(Tok(4), 8)],
        R11Ahead(2, 0, 2, At(6)),
        true,
    ),
    (
        &[Lo(Tok(2), At(6)), Hi(Tok(4), 8)],
        R11Ahead(2, 0, 2, At(4)),
        false,
    ),
    // Token 2 can come before it.
    (&[Lo(Tok(2), At(5))], R11Ahead(2, 0, 2, At(6)), false),
    // It deletes nothing, or the token does not need the atom.
    (&[Lo(Tok(2), At(7))], R11Ahead(2, 0, 1, At(7)), false),
    (&[Lo(Tok(2), At(6))], R11Ahead(2, 1, 2, At(6)), false),
    // A gap beyond the last moment leaves moment 0.
    (
        &[Lo(Tok(2), At(6)), Hi(Tok(4), 2)],
        R11Ahead(2, 0, 2, At(0)),
        true,
    ),
    // It may be dead.
    (
        &[Lo(Tok(2), At(6)), Lo(Out(2), At(8))],
        R11Ahead(2, 0, 2, At(6)),
        true,
    ),
];

const SPENT_AHEAD_OF_MANY: &[Row] = &[
    (&[Lo(Tok(2), At(6))], R11Ahead(2, 0, 2, At(6)), false),
    (
        &[Lo(Tok(2), At(6)), Take(2, 0, Tok(4))],
        R11Ahead(2, 0, 2, At(6)),
        false,
    ),
    (
        &[Lo(Tok(2), At(6)), Take(2, 0, Out(0))],
        R11Ahead(2, 0, 2, At(6)),
        true,
    ),
];

#[test]
fn an_outside_deleter_comes_before_who_adds(rt: HostRuntime) -> Result<(), Fail> {
    expect_steps(&rt, rt.alloc(), &WORKSHOP, SPENT_AHEAD)?;
    expect_steps(&rt, rt.alloc(), &SPENDER_FIRST, SPENT_AHEAD_OF_MANY)
}

const CLASH_AFTER: &[Row] = &[
    (&[Hi(Tok(2), 2)], R12After(2, 2, At(2)), true),
    (&[Hi(Tok(2), 2)], R12After(2, 2, At(1)), true),
    (&[Hi(Tok(2), 2)], R12After(2, 2, At(3)), false),
    (&[Hi(Tok(2), 2)], R12After(2, 2, At(0)), false),
    (&[Hi(Tok(4), 2)], R12After(4, 2, At(1)), true),
    (&[Hi(Tok(4), 2)], R12After(4, 2, At(2)), false),
    // It can come before token 2.
    (&[Hi(Tok(2), 3)], R12After(2, 2, At(2)), false),
    // The two do not interfere, one is the end, or there is no such action.
    (&[Hi(Tok(2), 0)], R12After(2, 0, At(2)), false),
    (&[Hi(Tok(1), 2)], R12After(1, 2, At(1)), false),
    (&[Hi(Tok(2), 0)], R12After(2, 9, At(2)), false),
    // It may be dead.
    (
        &[Lo(Out(2), At(8)), Lo(Tok(2), At(7))],
        R12After(2, 2, At(9)),
        true,
    ),
    (
        &[Lo(Out(2), At(8)), Lo(Tok(2), At(7))],
        R12After(2, 2, At(10)),
        false,
    ),
];

const NEVER_CLASH_AFTER: &[Row] = &[
    (&[Hi(Tok(2), 2)], R12After(2, 2, Never), true),
    (
        &[Hi(Tok(2), 2)],
        R12After(2, 2, At(1_999_999_999_999_999)),
        true,
    ),
    (
        &[Hi(Tok(2), 2)],
        R12After(2, 2, At(2_000_000_000_000_000)),
        false,
    ),
];

#[test]
fn an_outside_action_comes_after_a_token_that_it_disturbs(rt: HostRuntime) -> Result<(), Fail> {
    expect_steps(&rt, rt.alloc(), &WORKSHOP, CLASH_AFTER)?;
    expect_steps(&rt, rt.alloc(), &NEVER_AGAIN, NEVER_CLASH_AFTER)
}

const CLASH_AHEAD: &[Row] = &[
    (&[Lo(Tok(2), At(6))], R12Ahead(2, 2, At(5)), true),
    (&[Lo(Tok(2), At(6))], R12Ahead(2, 2, At(6)), true),
    (&[Lo(Tok(2), At(6))], R12Ahead(2, 2, At(4)), false),
    (&[Lo(Tok(2), At(6))], R12Ahead(2, 2, At(7)), false),
    // Token 2 can come before it.
    (&[Lo(Tok(2), At(5))], R12Ahead(2, 2, At(5)), false),
    // The two do not interfere, or one is the end.
    (&[Lo(Tok(2), At(8))], R12Ahead(2, 0, At(7)), false),
    (&[Hi(Tok(1), 9)], R12Ahead(1, 2, At(6)), false),
    // A gap beyond the last moment leaves moment 0.
    (
        &[Lo(Tok(4), At(2)), Hi(Tok(4), 2), Hi(Out(2), 2)],
        R12Ahead(4, 2, At(0)),
        true,
    ),
    // It may be dead.
    (
        &[Lo(Tok(2), At(6)), Lo(Out(2), At(8))],
        R12Ahead(2, 2, At(5)),
        true,
    ),
];

#[test]
fn an_outside_action_comes_before_a_token_that_it_disturbs(rt: HostRuntime) -> Result<(), Fail> {
    expect_steps(&rt, rt.alloc(), &WORKSHOP, CLASH_AHEAD)
}
