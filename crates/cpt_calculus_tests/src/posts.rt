//! Steps that post orders: rules 3, 6 and 9.

use crate::edits::Edit::{Bring, Hi, Join, Lo, Post, Take};
use crate::moments::{SPENDER_FIRST, WORKSHOP};
use crate::scene::Scene;
use crate::steps::Line::{R3, R6, R9After, R9Ahead};
use crate::steps::{Row, expect_steps};
use cpt_calculus::Cand::{Out, Tok};
use cpt_task::Span::At;
use std::test::Fail;

/// The workshop with a token 5 more, which makes for token 3.
const TWO_MAKERS: Scene = Scene {
    edits: &[
        Bring(1, 1, 1),
        Bring(1, 2, 2),
        Bring(2, 0, 0),
        Bring(3, 0, 0),
    ],
    ..WORKSHOP
};

/// Each action needs, deletes and adds atom 0, which is initial, and adds an atom of the goal.
/// Token 2 adds for token 3.
pub const SHARED: Scene = Scene {
    atoms: 4,
    actions: &[
        (2, &[0], &[0, 1], &[0]),
        (2, &[0], &[0, 2], &[0]),
        (2, &[0], &[0, 3], &[0]),
    ],
    init: &[0],
    goal: &[1, 2, 3],
    never: &[],
    bound: 6,
    edits: &[Bring(1, 1, 0), Bring(1, 2, 1), Join(3, 0, 2)],
};

const CLASHES: &[Row] = &[
    (&[Hi(Tok(2), 2)], R3(2, 3), true),
    (&[Hi(Tok(2), 3)], R3(2, 3), false),
    (&[Hi(Tok(2), 2)], R3(3, 2), false),
    (&[Hi(Tok(3), 1)], R3(3, 2), true),
    (&[Hi(Tok(3), 2)], R3(3, 2), false),
    // The order stands.
    (&[Hi(Tok(2), 2), Post(2, 3)], R3(2, 3), false),
    // Of one token, with the end, and of two that do not interfere.
    (&[Hi(Tok(3), 2)], R3(3, 3), false),
    (&[Hi(Tok(1), 2)], R3(1, 3), false),
    (&[Hi(Tok(2), 0)], R3(2, 4), false),
    (&[], R3(2, 9), false),
];

#[test]
fn tokens_that_interfere_are_ordered(rt: HostRuntime) -> Result<(), Fail> {
    expect_steps(&rt, rt.alloc(), &WORKSHOP, CLASHES)
}

const ADDERS: &[Row] = &[
    (&[Join(3, 0, 4)], R6(3, 0), true),
    (&[Take(3, 0, Out(0))], R6(3, 0), true),
    // The order stands.
    (&[Join(3, 0, 4), Post(4, 3)], R6(3, 0), false),
    (&[], R6(2, 0), false),
    (&[], R6(1, 1), false),
    // The list is two, or an outside action, or there is none.
    (&[], R6(3, 0), false),
    (&[Take(3, 0, Tok(4))], R6(3, 0), false),
    (&[Join(3, 0, 4)], R6(3, 2), false),
    (&[], R6(9, 0), false),
];

#[test]
fn the_only_adder_comes_first(rt: HostRuntime) -> Result<(), Fail> {
    expect_steps(&rt, rt.alloc(), &WORKSHOP, ADDERS)
}

const DELETER_AFTER: &[Row] = &[
    (&[Hi(Tok(4), 2)], R9After(2, 0, 3), true),
    (&[Hi(Tok(4), 3)], R9After(2, 0, 3), false),
    (&[Post(4, 3)], R9After(2, 0, 3), true),
    // The order stands.
    (&[Hi(Tok(4), 2), Post(2, 3)], R9After(2, 0, 3), false),
    // No precondition of the token.
    (&[Hi(Tok(4), 2)], R9After(2, 1, 3), false),
];

// The list of token 2 is not one token, and that of token 3 is.
const DELETER_AFTER_MANY: &[Row] = &[
    (&[Hi(Tok(4), 2)], R9After(2, 0, 3), false),
    (
        &[Hi(Tok(4), 2), Take(2, 0, Tok(4))],
        R9After(2, 0, 3),
        false,
    ),
    (&[Hi(Tok(4), 2), Take(2, 0, Out(0))], R9After(2, 0, 3), true),
    // The deleter is the token itself.
    (&[Hi(Tok(4), 2)], R9After(3, 0, 3), false),
];

// Token 5 deletes nothing.
const MAKER_AFTER: &[Row] = &[
    (&[Hi(Tok(4), 2), Lo(Tok(5), At(5))], R9After(2, 0, 5), false),
    (&[Hi(Tok(4), 2), Lo(Tok(5), At(5))], R9After(2, 0, 3), true),
];

// The deleter is the one that adds.
const ADDER_AFTER: &[Row] = &[
    (&[Hi(Tok(2), 1)], R9After(3, 0, 2), false),
    (&[Hi(Tok(2), 1)], R9Ahead(3, 0, 2), false),
];

#[test]
fn a_deleter_comes_after_who_needs(rt: HostRuntime) -> Result<(), Fail> {
    expect_steps(&rt, rt.alloc(), &WORKSHOP, DELETER_AFTER)?;
    expect_steps(&rt, rt.alloc(), &SPENDER_FIRST, DELETER_AFTER_MANY)?;
    expect_steps(&rt, rt.alloc(), &TWO_MAKERS, MAKER_AFTER)?;
    expect_steps(&rt, rt.alloc(), &SHARED, ADDER_AFTER)
}

const DELETER_AHEAD: &[Row] = &[
    (&[Hi(Tok(3), 1)], R9Ahead(2, 0, 3), true),
    (&[Hi(Tok(3), 2)], R9Ahead(2, 0, 3), false),
    (&[Post(3, 2)], R9Ahead(2, 0, 3), true),
    // The order stands.
    (&[Hi(Tok(3), 1), Post(3, 4)], R9Ahead(2, 0, 3), false),
    // No precondition of the token.
    (&[Hi(Tok(3), 1)], R9Ahead(2, 1, 3), false),
];

const DELETER_AHEAD_OF_MANY: &[Row] = &[
    (&[Hi(Tok(3), 1)], R9Ahead(2, 0, 3), false),
    (
        &[Hi(Tok(3), 1), Take(2, 0, Tok(4))],
        R9Ahead(2, 0, 3),
        false,
    ),
    (&[Hi(Tok(3), 1), Take(2, 0, Out(0))], R9Ahead(2, 0, 3), true),
    // The deleter is the token itself.
    (&[Hi(Tok(3), 1)], R9Ahead(3, 0, 3), false),
];

const MAKER_AHEAD: &[Row] = &[
    (&[Hi(Tok(5), 1), Hi(Tok(3), 1)], R9Ahead(2, 0, 5), false),
    (&[Hi(Tok(5), 1), Hi(Tok(3), 1)], R9Ahead(2, 0, 3), true),
];

#[test]
fn a_deleter_comes_before_who_adds(rt: HostRuntime) -> Result<(), Fail> {
    expect_steps(&rt, rt.alloc(), &WORKSHOP, DELETER_AHEAD)?;
    expect_steps(&rt, rt.alloc(), &SPENDER_FIRST, DELETER_AHEAD_OF_MANY)?;
    expect_steps(&rt, rt.alloc(), &TWO_MAKERS, MAKER_AHEAD)
}
