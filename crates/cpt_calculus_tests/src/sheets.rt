//! Sheets after steps and decisions, compared with sheets worked out by hand.

ghost use Rattle.std.specs.Prelude.{IfSome};
ghost use Rattle.cpt_sheet.specs.Formed.{IsFormed};
ghost use Rattle.cpt_sheet.specs.Gaps.{FitsTask};

use crate::edits::Edit::{self, Bring, Hi, Lo};
use crate::edits::edit_all;
use crate::lists::KEY;
use crate::moments::WORKSHOP;
use crate::posts::SHARED;
use crate::scene::{Scene, root_of, tables_of, task_of};
use crate::steps::Line::{self, R1, R2, R4, R6, R7, R10};
use crate::steps::{step_of, take_step};
use cpt_calculus::Cand::{self, Out, Tok};
use cpt_calculus::Kind::{self, Act, End, Start};
use cpt_calculus::{Interval, Need, Sheet, Token, copy_sheet, is_dead};
use cpt_tables::Tables;
use cpt_task::Span::{self, At, Never};
use cpt_task::Task;
use std::alloc::Global;
use std::process::Abort;
use std::test::Fail;

/// What is done to a sheet: a legal step, or an edit.
#[derive(Clone, Copy)]
pub enum Turn {
    Take(Line),
    Edit(Edit),
}

/// An atom and its candidates.
pub type WantedNeed = (u32, &'static [Cand]);

/// A kind, the first and the last moment, and the lists.
pub type WantedToken = (Kind, Span, u64, &'static [WantedNeed]);

/// The tokens, the outside intervals and the orders of a sheet.
pub type Wanted = (
    &'static [WantedToken],
    &'static [(Span, u64)],
    &'static [(u32, u32)],
);

fn is_need(need: &Need, wanted: &WantedNeed) -> bool {
    need.atom == wanted.0 && need.cands.as_slice() == wanted.1
}

fn are_needs(needs: &[Need], wanted: &[WantedNeed]) -> bool {
    needs.len() == wanted.len() && needs.iter().zip(wanted).all(|(n, w)| is_need(n, w))
}

fn is_interval(span: Interval, lo: Span, hi: u64) -> bool {
    span.lo == lo && span.hi == hi
}

fn is_token(token: &Token, wanted: &WantedToken) -> bool {
    token.kind == wanted.0
        && is_interval(token.span, wanted.1, wanted.2)
        && are_needs(token.lists.as_slice(), wanted.3)
}

fn are_tokens(tokens: &[Token], wanted: &[WantedToken]) -> bool {
    for (i, token) in tokens.iter().enumerate() {
        match wanted.get(i) {
            Some(other) if is_token(token, other) => {}
            _ => return false,
        }
    }
    tokens.len() == wanted.len()
}

fn are_intervals(spans: &[Interval], wanted: &[(Span, u64)]) -> bool {
    spans.len() == wanted.len()
        && spans
            .iter()
            .zip(wanted)
            .all(|(s, w)| is_interval(*s, w.0, w.1))
}

/// Whether the sheet has this bound and these parts.
fn is_sheet(sheet: &Sheet, bound: u64, wanted: &Wanted) -> bool {
    sheet.bound == bound
        && are_tokens(sheet.tokens.as_slice(), wanted.0)
        && are_intervals(sheet.outs.as_slice(), wanted.1)
        && sheet.orders.as_slice() == wanted.2
}

fn take_turn(task: &Task, tables: &Tables, sheet: &mut Sheet, turn: Turn) -> Option<()>
    requires tables { FitsTask task.now tables.now }
    requires formed { IsFormed task.now sheet.old }
    ensures { IfSome result (λ u. IsFormed task.now sheet.new) }
{
    match turn {
        Turn::Take(line) => take_step(task, tables, sheet, &step_of(line)),
        Turn::Edit(edit) => edit_all(task, sheet, &[edit]),
    }
}

fn take_turns(task: &Task, tables: &Tables, sheet: &mut Sheet, turns: &[Turn]) -> Option<()>
    requires tables { FitsTask task.now tables.now }
    requires formed { IsFormed task.now sheet.old }
    ensures { IfSome result (λ u. IsFormed task.now sheet.new) }
{
    for turn in turns {
        take_turn(task, tables, sheet, *turn)?;
    }
    Some(())
}

/// The sheet of the scene after these turns, over its task and tables.
fn walked_over(
    alloc: Global,
    scene: &Scene,
    task: &Task,
    tables: &Tables,
    turns: &[Turn],
) -> Option<Sheet>
    requires { FitsTask task.now tables.now }
{
    let mut sheet = root_of(alloc, task, tables, scene.bound)?;
    edit_all(task, &mut sheet, scene.edits)?;
    take_turns(task, tables, &mut sheet, turns)?;
    Some(sheet)
}

/// The sheet of the scene after these turns; None where a step is not legal.
pub fn walked(alloc: Global, scene: &Scene, turns: &[Turn]) -> Option<Sheet> {
    let task = task_of(alloc, scene)?;
    let tables = tables_of(alloc, scene, &task)?;
    walked_over(alloc, scene, &task, &tables, turns)
}

/// Whether a copy of the sheet has this bound and these parts.
fn is_copied(alloc: Global, sheet: &Sheet, bound: u64, wanted: &Wanted) -> Option<bool> {
    let copy = copy_sheet(alloc, sheet).ok()?;
    Some(is_sheet(&copy, bound, wanted))
}

/// Compares the sheet after these turns, and a copy of it, with the wanted one.
fn expect_sheet(
    rt: &impl Abort,
    alloc: Global,
    scene: &Scene,
    turns: &[Turn],
    wanted: &Wanted,
    dead: bool,
) -> Result<(), Fail> {
    let Some(sheet) = walked(alloc, scene, turns) else {
        return Err("a turn is refused")?;
    };
    let found = is_sheet(&sheet, scene.bound, wanted) && is_dead(&sheet) == dead;
    assert!(rt; found, "{sheet:?}");
    let copied = is_copied(alloc, &sheet, scene.bound, wanted);
    assert_eq!(rt; copied, Some(true), "a copy of {sheet:?}");
    Ok(())
}

/// A scene, turns, the sheet after them, and whether it is dead.
type Case = (&'static Scene, &'static [Turn], &'static Wanted, bool);

fn expect_sheets(rt: &impl Abort, alloc: Global, cases: &[Case]) -> Result<(), Fail> {
    for case in cases {
        expect_sheet(rt, alloc, case.0, case.1, case.2, case.3)?;
    }
    Ok(())
}

/// Each of these lists of turns has a step that is not legal where its turn comes.
fn expect_refusals(rt: &impl Abort, alloc: Global, scene: &Scene, lists: &[&'static [Turn]]) {
    for turns in lists {
        let refused = walked(alloc, scene, turns).is_none();
        assert!(rt; refused);
    }
}

/// Action 0 lasts 1 and adds the key; action 1 lasts 2, needs the key and adds the goal.
const TWO_ACTIONS: Scene = Scene {
    atoms: 2,
    actions: &[(1, &[], &[0], &[]), (2, &[0], &[1], &[])],
    init: &[],
    goal: &[1],
    never: &[],
    bound: 2,
    edits: &[],
};

const TWO_ACTIONS_IN_THREE: Scene = Scene {
    bound: 3,
    ..TWO_ACTIONS
};

const START: WantedToken = (Start, At(0), 0, &[]);

const ROOT: Wanted = (
    &[START, (End, At(0), 2, &[(1, &[Out(1)])])],
    &[(At(0), 1), (At(0), 0)],
    &[(0, 1)],
);

const BROUGHT: Wanted = (
    &[
        START,
        (End, At(0), 2, &[(1, &[Tok(2)])]),
        (Act(1), At(0), 0, &[(0, &[Out(0)])]),
    ],
    &[(At(0), 1), (At(0), 0)],
    &[(0, 1), (0, 2), (2, 1)],
);

const LATE: Wanted = (
    &[
        START,
        (End, At(0), 2, &[(1, &[Tok(2)])]),
        (Act(1), At(1), 0, &[(0, &[Out(0)])]),
    ],
    &[(At(0), 1), (At(0), 0)],
    &[(0, 1), (0, 2), (2, 1)],
);

const BRING: Turn = Turn::Edit(Bring(1, 1, 1));

const WITHIN_TWO: &[Case] = &[
    (&TWO_ACTIONS, &[], &ROOT, false),
    (&TWO_ACTIONS, &[BRING], &BROUGHT, false),
    (
        &TWO_ACTIONS,
        &[BRING, Turn::Take(R4(2, 0, At(1)))],
        &LATE,
        true,
    ),
];

const NOT_WITHIN_TWO: &[&[Turn]] = &[&[BRING, Turn::Take(R4(2, 0, At(2)))]];

#[test]
fn two_actions_are_too_late_for_two(rt: HostRuntime) -> Result<(), Fail> {
    expect_sheets(&rt, rt.alloc(), WITHIN_TWO)?;
    expect_refusals(&rt, rt.alloc(), &TWO_ACTIONS, NOT_WITHIN_TWO);
    Ok(())
}

const EMPTIED: Wanted = (
    &[START, (End, At(2), 2, &[(1, &[])])],
    &[(At(0), 1), (At(1), 0)],
    &[(0, 1)],
);

const RAISE: Turn = Turn::Take(R4(1, 1, At(2)));

const FROM_OUTSIDE: &[Case] = &[(
    &TWO_ACTIONS,
    &[RAISE, Turn::Take(R10(1, 0, At(1))), Turn::Take(R7(1, 1, 1))],
    &EMPTIED,
    true,
)];

const NOT_FROM_OUTSIDE: &[&[Turn]] = &[
    &[RAISE, Turn::Take(R10(1, 0, At(2)))],
    &[RAISE, Turn::Take(R7(1, 1, 1))],
];

#[test]
fn two_actions_are_too_late_for_two_from_outside(rt: HostRuntime) -> Result<(), Fail> {
    expect_sheets(&rt, rt.alloc(), FROM_OUTSIDE)?;
    expect_refusals(&rt, rt.alloc(), &TWO_ACTIONS, NOT_FROM_OUTSIDE);
    Ok(())
}

const IN_THREE: &[Turn] = &[
    Turn::Take(R4(1, 1, At(2))),
    Turn::Take(R10(1, 0, At(1))),
    Turn::Edit(Bring(1, 1, 1)),
    Turn::Edit(Bring(2, 0, 0)),
    Turn::Take(R1(2, 1, At(3))),
    Turn::Take(R2(3, 2, At(0))),
];

const LEAF: Wanted = (
    &[
        START,
        (End, At(3), 3, &[(1, &[Tok(2)])]),
        (Act(1), At(1), 1, &[(0, &[Tok(3)])]),
        (Act(0), At(0), 0, &[]),
    ],
    &[(At(0), 2), (At(1), 1)],
    &[(0, 1), (0, 2), (0, 3), (2, 1), (3, 1), (3, 2)],
);

const WITHIN_THREE: &[Case] = &[(&TWO_ACTIONS_IN_THREE, IN_THREE, &LEAF, false)];

#[test]
fn two_actions_are_in_time_for_three(rt: HostRuntime) -> Result<(), Fail> {
    expect_sheets(&rt, rt.alloc(), WITHIN_THREE)
}

/// An initial goal, which an action may add again, and an action that is too long for the bound.
const GOAL_AT_FIRST: Scene = Scene {
    atoms: 2,
    actions: &[(1, &[], &[0], &[]), (4, &[1], &[0, 1], &[])],
    init: &[0],
    goal: &[0, 1],
    never: &[],
    bound: 3,
    edits: &[],
};

const OFFERED: Wanted = (
    &[START, (End, At(0), 3, &[(0, &[Tok(0), Out(0)]), (1, &[])])],
    &[(At(0), 2), (Never, 0)],
    &[(0, 1)],
);

const OFFERS: &[Case] = &[(&GOAL_AT_FIRST, &[], &OFFERED, true)];

#[test]
fn the_root_offers_the_start_and_live_actions(rt: HostRuntime) -> Result<(), Fail> {
    expect_sheets(&rt, rt.alloc(), OFFERS)
}

const BENCH: Wanted = (
    &[
        START,
        (End, At(0), 10, &[(1, &[Tok(2)]), (2, &[Tok(3)])]),
        (Act(1), At(0), 8, &[(0, &[Tok(4)])]),
        (Act(2), At(0), 7, &[(0, &[Tok(4), Out(0)])]),
        (Act(0), At(0), 9, &[]),
    ],
    &[(At(0), 9), (At(0), 8), (At(0), 7)],
    &[
        (0, 1),
        (0, 2),
        (0, 3),
        (0, 4),
        (2, 1),
        (3, 1),
        (4, 1),
        (4, 2),
    ],
);

const JOINED: Wanted = (
    &[
        START,
        (End, At(0), 10, &[(1, &[Tok(2)]), (2, &[Tok(3)])]),
        (Act(1), At(0), 8, &[(0, &[Tok(4)])]),
        (Act(2), At(0), 7, &[(0, &[Tok(4)])]),
        (Act(0), At(0), 9, &[]),
    ],
    &[(At(0), 9), (At(0), 8), (At(0), 7)],
    &[
        (0, 1),
        (0, 2),
        (0, 3),
        (0, 4),
        (2, 1),
        (3, 1),
        (4, 1),
        (4, 2),
        (4, 3),
    ],
);

const BESIDE: &[Case] = &[
    (&WORKSHOP, &[], &BENCH, false),
    (
        &WORKSHOP,
        &[Turn::Edit(Edit::Join(3, 0, 4)), Turn::Take(R6(3, 0))],
        &JOINED,
        false,
    ),
];

#[test]
fn a_brought_token_is_offered_beside_its_action(rt: HostRuntime) -> Result<(), Fail> {
    expect_sheets(&rt, rt.alloc(), BESIDE)
}

const ALL: &[Cand] = &[Tok(0), Out(0), Out(1), Out(2)];

/// The resource that three actions share, at its root.
pub const RESOURCE: Scene = Scene {
    edits: &[],
    ..SHARED
};

const ONE: Wanted = (
    &[
        START,
        (
            End,
            At(0),
            6,
            &[(1, &[Tok(2)]), (2, &[Out(1)]), (3, &[Out(2)])],
        ),
        (Act(0), At(0), 4, &[(0, ALL)]),
    ],
    &[(At(0), 4), (At(0), 4), (At(0), 4)],
    &[(0, 1), (0, 2), (2, 1)],
);

const TWO: Wanted = (
    &[
        START,
        (
            End,
            At(0),
            6,
            &[(1, &[Tok(2)]), (2, &[Tok(3)]), (3, &[Out(2)])],
        ),
        (
            Act(0),
            At(0),
            4,
            &[(0, &[Tok(0), Tok(3), Out(0), Out(1), Out(2)])],
        ),
        (
            Act(1),
            At(0),
            4,
            &[(0, &[Tok(0), Tok(2), Out(0), Out(1), Out(2)])],
        ),
    ],
    &[(At(0), 4), (At(0), 4), (At(0), 4)],
    &[(0, 1), (0, 2), (0, 3), (2, 1), (3, 1)],
);

const THREE: Wanted = (
    &[
        START,
        (
            End,
            At(0),
            6,
            &[(1, &[Tok(2)]), (2, &[Tok(3)]), (3, &[Out(2)])],
        ),
        (Act(0), At(0), 4, &[(0, &[Tok(4)])]),
        (
            Act(1),
            At(0),
            4,
            &[(0, &[Tok(0), Tok(2), Tok(4), Out(0), Out(1), Out(2)])],
        ),
        (
            Act(0),
            At(0),
            4,
            &[(0, &[Tok(0), Tok(2), Tok(3), Out(0), Out(1), Out(2)])],
        ),
    ],
    &[(At(0), 4), (At(0), 4), (At(0), 4)],
    &[
        (0, 1),
        (0, 2),
        (0, 3),
        (0, 4),
        (2, 1),
        (3, 1),
        (4, 1),
        (4, 2),
    ],
);

const FIRST: Turn = Turn::Edit(Bring(1, 1, 0));

const SECOND: Turn = Turn::Edit(Bring(1, 2, 1));

const THIRD: Turn = Turn::Edit(Bring(2, 0, 0));

const ADDERS: &[Case] = &[
    (&RESOURCE, &[FIRST], &ONE, false),
    (&RESOURCE, &[FIRST, SECOND], &TWO, false),
    (&RESOURCE, &[FIRST, SECOND, THIRD], &THREE, false),
];

#[test]
fn a_brought_token_has_each_other_adder(rt: HostRuntime) -> Result<(), Fail> {
    expect_sheets(&rt, rt.alloc(), ADDERS)
}

const BROUGHT_LATE: Wanted = (
    &[
        START,
        (
            End,
            At(0),
            6,
            &[(1, &[Tok(2)]), (2, &[Out(1)]), (3, &[Out(2)])],
        ),
        (Act(0), At(1), 3, &[(0, &[Tok(0), Out(0), Out(1)])]),
    ],
    &[(At(1), 3), (At(0), 4), (At(5), 4)],
    &[(0, 1), (0, 2), (2, 1)],
);

const KEY_BROUGHT: Wanted = (
    &[
        START,
        (End, At(0), 3, &[(1, &[Out(1)]), (2, &[Tok(2)])]),
        (Act(2), At(0), 1, &[(0, &[Out(0)])]),
    ],
    &[(At(0), 2), (At(0), 1), (At(0), 1)],
    &[(0, 1), (0, 2), (2, 1)],
);

const FROM_OUTSIDE_INTERVALS: &[Case] = &[
    (
        &RESOURCE,
        &[
            Turn::Edit(Lo(Out(0), At(1))),
            Turn::Edit(Hi(Out(0), 3)),
            Turn::Edit(Lo(Out(2), At(5))),
            Turn::Edit(Bring(1, 1, 0)),
        ],
        &BROUGHT_LATE,
        false,
    ),
    // With nothing to begin with, and the outside actions of the key alone.
    (&KEY, &[Turn::Edit(Bring(1, 2, 2))], &KEY_BROUGHT, false),
];

#[test]
fn a_brought_token_has_the_outside_interval_and_live_adders(rt: HostRuntime) -> Result<(), Fail> {
    expect_sheets(&rt, rt.alloc(), FROM_OUTSIDE_INTERVALS)
}
