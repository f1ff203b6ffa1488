//! Decisions that fit, flaws with their children, and dead sheets.

ghost use Rattle.std.specs.Prelude.{IfSome};
ghost use Rattle.cpt_sheet.specs.Formed.{IsFormed};

use crate::edits::Edit::{self, Bring, Hi, Join, Lo, Post, Take};
use crate::edits::edit_all;
use crate::lists::KEY;
use crate::moments::{SPENDER_FIRST, WORKSHOP};
use crate::posts::SHARED;
use crate::scene::{Scene, root_of, tables_of, task_of};
use crate::sheets::RESOURCE;
use cpt_calculus::Cand::{Out, Tok};
use cpt_calculus::{Decision, Flaw, Sheet, fits, flaw_children, is_dead, is_flaw};
use cpt_task::Span::{At, Never};
use cpt_task::Task;
use std::alloc::Global;
use std::process::Abort;
use std::test::Fail;

/// A flaw, with its numbers in the order of a certificate's line.
#[derive(Clone, Copy, Debug, PartialEq, Eq)]
pub enum Gap {
    Threat(u32, u32, u32),
    Need(u32, u32),
    Clash(u32, u32),
}

fn flaw_of(gap: Gap) -> Flaw {
    match gap {
        Gap::Threat(tok, pre, foe) => Flaw::Threat { tok, pre, foe },
        Gap::Need(tok, pre) => Flaw::OpenNeed { tok, pre },
        Gap::Clash(first, second) => Flaw::Clash { first, second },
    }
}

fn decision_of(edit: Edit) -> Option<Decision> {
    match edit {
        Edit::Join(tok, pre, by) => Some(Decision::Join { tok, pre, by }),
        Edit::Bring(tok, pre, act) => Some(Decision::Bring { tok, pre, act }),
        Edit::Post(first, second) => Some(Decision::Before { first, second }),
        _ => None,
    }
}

fn edit_of(decision: Decision) -> Edit {
    match decision {
        Decision::Join { tok, pre, by } => Edit::Join(tok, pre, by),
        Decision::Bring { tok, pre, act } => Edit::Bring(tok, pre, act),
        Decision::Before { first, second } => Edit::Post(first, second),
    }
}

/// The sheet of the scene after the edits.
fn sheet_of(alloc: Global, task: &Task, scene: &Scene, edits: &[Edit]) -> Option<Sheet> {
    let tables = tables_of(alloc, scene, task)?;
    let mut sheet = root_of(alloc, task, &tables, scene.bound)?;
    edit_all(task, &mut sheet, scene.edits)?;
    edit_all(task, &mut sheet, edits)?;
    Some(sheet)
}

fn fits_at(task: &Task, sheet: &Sheet, decision: &Decision) -> bool {
    fits(task, sheet, decision)
}

fn edit_fits(task: &Task, sheet: &Sheet, edit: Edit) -> Option<bool> {
    let decision = decision_of(edit)?;
    Some(fits_at(task, sheet, &decision))
}

fn fits_there(alloc: Global, scene: &Scene, edit: Edit) -> Option<bool> {
    let task = task_of(alloc, scene)?;
    let sheet = sheet_of(alloc, &task, scene, &[])?;
    edit_fits(&task, &sheet, edit)
}

const FITTING: &[(Edit, bool)] = &[
    (Join(3, 0, 4), true),
    (Join(2, 0, 4), true),
    (Join(3, 0, 0), false),
    (Join(3, 1, 4), false),
    (Join(9, 0, 4), false),
    (Bring(3, 0, 0), true),
    (Bring(3, 0, 1), false),
    (Bring(2, 0, 0), false),
    (Bring(9, 0, 0), false),
    (Post(2, 3), true),
    (Post(0, 1), true),
    (Post(1, 2), true),
    (Post(1, 0), false),
    (Post(2, 2), false),
    (Post(2, 5), false),
    (Post(5, 2), false),
];

fn expect_fits(rt: &impl Abort, alloc: Global, rows: &[(Edit, bool)]) -> Result<(), Fail> {
    for row in rows {
        let found = fits_there(alloc, &WORKSHOP, row.0);
        assert_eq!(rt; found, Some(row.1), "{:?}", row.0);
    }
    Ok(())
}

#[test]
fn decisions_fit_where_their_parts_are_there(rt: HostRuntime) -> Result<(), Fail> {
    expect_fits(&rt, rt.alloc(), FITTING)
}

fn is_flaw_at(task: &Task, sheet: &Sheet, flaw: &Flaw) -> bool {
    is_flaw(task, sheet, flaw)
}

fn is_flaw_there(alloc: Global, scene: &Scene, edits: &[Edit], gap: Gap) -> Option<bool> {
    let task = task_of(alloc, scene)?;
    let sheet = sheet_of(alloc, &task, scene, edits)?;
    Some(is_flaw_at(&task, &sheet, &flaw_of(gap)))
}

fn expect_gaps(
    rt: &impl Abort,
    alloc: Global,
    scene: &Scene,
    rows: &[(&'static [Edit], Gap, bool)],
) -> Result<(), Fail> {
    for row in rows {
        let found = is_flaw_there(alloc, scene, row.0, row.1);
        assert_eq!(rt; found, Some(row.2), "{:?} after {:?}", row.1, row.0);
    }
    Ok(())
}

const THREATS: &[(&[Edit], Gap, bool)] = &[
    (&[], Gap::Threat(2, 0, 3), true),
    (&[Post(4, 3)], Gap::Threat(2, 0, 3), true),
    (&[Post(3, 4)], Gap::Threat(2, 0, 3), false),
    (&[Post(2, 3)], Gap::Threat(2, 0, 3), false),
    (&[], Gap::Threat(2, 0, 4), false),
    (&[], Gap::Threat(2, 0, 0), false),
    (&[], Gap::Threat(2, 0, 9), false),
    (&[], Gap::Threat(2, 1, 3), false),
    (&[], Gap::Threat(3, 0, 3), false),
    (&[Take(3, 0, Out(0))], Gap::Threat(3, 0, 3), false),
];

const THREATS_TO_MANY: &[(&[Edit], Gap, bool)] = &[
    (&[], Gap::Threat(2, 0, 3), false),
    (&[Take(2, 0, Out(0))], Gap::Threat(2, 0, 3), true),
    (&[Take(2, 0, Tok(4))], Gap::Threat(2, 0, 3), false),
];

const THREATS_OF_ADDERS: &[(&[Edit], Gap, bool)] = &[
    (&[], Gap::Threat(3, 0, 2), false),
    (&[], Gap::Threat(2, 0, 3), false),
    (&[Join(2, 0, 0)], Gap::Threat(2, 0, 3), true),
];

const NEEDS: &[(&[Edit], Gap, bool)] = &[
    (&[], Gap::Need(3, 0), true),
    (&[], Gap::Need(2, 0), false),
    (&[Take(3, 0, Tok(4))], Gap::Need(3, 0), true),
    (&[Take(3, 0, Out(0))], Gap::Need(3, 0), false),
    (
        &[Take(3, 0, Tok(4)), Take(3, 0, Out(0))],
        Gap::Need(3, 0),
        false,
    ),
    (&[], Gap::Need(3, 1), false),
    (&[], Gap::Need(9, 0), false),
];

const CLASHES: &[(&[Edit], Gap, bool)] = &[
    (&[], Gap::Clash(2, 3), true),
    (&[], Gap::Clash(3, 4), true),
    (&[Post(2, 3)], Gap::Clash(2, 3), false),
    (&[Post(3, 2)], Gap::Clash(2, 3), false),
    (&[], Gap::Clash(3, 2), false),
    (&[], Gap::Clash(3, 3), false),
    (&[], Gap::Clash(2, 4), false),
    (&[], Gap::Clash(1, 3), false),
    (&[], Gap::Clash(0, 3), false),
    (&[], Gap::Clash(3, 9), false),
];

#[test]
fn flaws_stand_where_their_parts_do(rt: HostRuntime) -> Result<(), Fail> {
    expect_gaps(&rt, rt.alloc(), &WORKSHOP, THREATS)?;
    expect_gaps(&rt, rt.alloc(), &SPENDER_FIRST, THREATS_TO_MANY)?;
    expect_gaps(&rt, rt.alloc(), &SHARED, THREATS_OF_ADDERS)?;
    expect_gaps(&rt, rt.alloc(), &WORKSHOP, NEEDS)?;
    expect_gaps(&rt, rt.alloc(), &WORKSHOP, CLASHES)
}

/// Pushes the flaw where it stands.
fn push_flaw(task: &Task, sheet: &Sheet, found: &mut Vec<Gap>, gap: Gap) -> Option<()> {
    if is_flaw_at(task, sheet, &flaw_of(gap)) {
        found.push(gap).ok()?;
    }
    Some(())
}

fn push_threats(
    task: &Task,
    sheet: &Sheet,
    found: &mut Vec<Gap>,
    tok: u32,
    pre: u32,
) -> Option<()> {
    for foe in 0..8 {
        push_flaw(task, sheet, found, Gap::Threat(tok, pre, foe))?;
    }
    Some(())
}

/// For each of some tokens and atoms: its threats, or whether it is an open need.
fn push_places(task: &Task, sheet: &Sheet, found: &mut Vec<Gap>, threats: bool) -> Option<()> {
    for place in 0..32 {
        let tok = place / 4;
        let pre = place % 4;
        if threats {
            push_threats(task, sheet, found, tok, pre)?;
        } else {
            push_flaw(task, sheet, found, Gap::Need(tok, pre))?;
        }
    }
    Some(())
}

fn push_clashes(task: &Task, sheet: &Sheet, found: &mut Vec<Gap>) -> Option<()> {
    for place in 0..64 {
        push_flaw(task, sheet, found, Gap::Clash(place / 8, place % 8))?;
    }
    Some(())
}

/// The flaws among the first eight tokens and four atoms: threats, open needs and clashes, each by their numbers.
fn gaps_of(alloc: Global, scene: &Scene, edits: &[Edit]) -> Option<Vec<Gap>> {
    let task = task_of(alloc, scene)?;
    let sheet = sheet_of(alloc, &task, scene, edits)?;
    let mut found = Vec::new(alloc);
    push_places(&task, &sheet, &mut found, true)?;
    push_places(&task, &sheet, &mut found, false)?;
    push_clashes(&task, &sheet, &mut found)?;
    Some(found)
}

/// The children of the flaw; None where it does not stand.
fn found_children(alloc: Global, task: &Task, sheet: &Sheet, flaw: &Flaw) -> Option<Vec<Decision>> {
    if is_flaw(task, sheet, flaw) {
        flaw_children(alloc, task, sheet, flaw).ok()
    } else {
        None
    }
}

/// The children of the flaw at the sheet of the scene after the edits; None where it does not stand.
fn children_of(alloc: Global, scene: &Scene, edits: &[Edit], gap: Gap) -> Option<Vec<Decision>> {
    let task = task_of(alloc, scene)?;
    let sheet = sheet_of(alloc, &task, scene, edits)?;
    found_children(alloc, &task, &sheet, &flaw_of(gap))
}

fn edits_of(alloc: Global, decisions: &[Decision]) -> Option<Vec<Edit>> {
    decisions.iter().map(|d| edit_of(*d)).collect(alloc).ok()
}

/// The children of the flaw, as edits.
fn edits_for(alloc: Global, scene: &Scene, edits: &[Edit], gap: Gap) -> Option<Vec<Edit>> {
    let children = children_of(alloc, scene, edits, gap)?;
    edits_of(alloc, &children)
}

/// A flaw with its children.
type Family = (Gap, &'static [Edit]);

fn expect_children(
    rt: &impl Abort,
    alloc: Global,
    scene: &Scene,
    edits: &[Edit],
    families: &[Family],
) -> Result<(), Fail> {
    for family in families {
        let Some(found) = edits_for(alloc, scene, edits, family.0) else {
            return Err("no flaw")?;
        };
        assert_eq!(rt;
            found.as_slice(),
            family.1,
            "of {:?} after {edits:?}",
            family.0
        );
    }
    Ok(())
}

/// Compares the flaws of the scene after the edits with these, each with its children.
fn expect_families(
    rt: &impl Abort,
    alloc: Global,
    scene: &Scene,
    edits: &[Edit],
    families: &[Family],
) -> Result<(), Fail> {
    let Some(found) = gaps_of(alloc, scene, edits) else {
        return Err("no sheet")?;
    };
    let wanted: Vec<Gap> = families.iter().map(|f| f.0).collect(alloc)?;
    assert_eq!(rt; found.as_slice(), wanted.as_slice(), "after {edits:?}");
    expect_children(rt, alloc, scene, edits, families)
}

/// Edits, and the flaws after them.
type Sight = (&'static [Edit], &'static [Family]);

fn expect_sights(
    rt: &impl Abort,
    alloc: Global,
    scene: &Scene,
    sights: &[Sight],
) -> Result<(), Fail> {
    for sight in sights {
        expect_families(rt, alloc, scene, sight.0, sight.1)?;
    }
    Ok(())
}

const OF_A_SHARED_RESOURCE: &[Sight] = &[
    (
        &[],
        &[
            (Gap::Need(1, 1), &[Bring(1, 1, 0)]),
            (Gap::Need(1, 2), &[Bring(1, 2, 1)]),
            (Gap::Need(1, 3), &[Bring(1, 3, 2)]),
        ],
    ),
    (
        &[Bring(1, 1, 0)],
        &[
            (Gap::Need(1, 2), &[Bring(1, 2, 1)]),
            (Gap::Need(1, 3), &[Bring(1, 3, 2)]),
            (
                Gap::Need(2, 0),
                &[
                    Join(2, 0, 0),
                    Bring(2, 0, 0),
                    Bring(2, 0, 1),
                    Bring(2, 0, 2),
                ],
            ),
        ],
    ),
    (
        &[Bring(1, 1, 0), Bring(1, 2, 1), Join(2, 0, 0)],
        &[
            (Gap::Threat(2, 0, 3), &[Post(3, 0), Post(2, 3)]),
            (Gap::Need(1, 3), &[Bring(1, 3, 2)]),
            (
                Gap::Need(3, 0),
                &[
                    Join(3, 0, 0),
                    Join(3, 0, 2),
                    Bring(3, 0, 0),
                    Bring(3, 0, 1),
                    Bring(3, 0, 2),
                ],
            ),
            (Gap::Clash(2, 3), &[Post(2, 3), Post(3, 2)]),
        ],
    ),
];

#[test]
fn flaws_of_a_shared_resource(rt: HostRuntime) -> Result<(), Fail> {
    expect_sights(&rt, rt.alloc(), &RESOURCE, OF_A_SHARED_RESOURCE)
}

/// The key that is used up, at the bound of its shortest plan.
const KEY_IN_SIX: Scene = Scene { bound: 6, ..KEY };

const OF_A_KEY: &[Sight] = &[
    (
        &[],
        &[
            (Gap::Need(1, 1), &[Bring(1, 1, 1)]),
            (Gap::Need(1, 2), &[Bring(1, 2, 2)]),
        ],
    ),
    (
        &[Bring(1, 2, 2), Bring(2, 0, 0), Bring(1, 1, 1)],
        &[
            (Gap::Threat(2, 0, 4), &[Post(4, 3), Post(2, 4)]),
            (Gap::Need(4, 0), &[Join(4, 0, 3), Bring(4, 0, 0)]),
            (Gap::Clash(2, 4), &[Post(2, 4), Post(4, 2)]),
            (Gap::Clash(3, 4), &[Post(3, 4), Post(4, 3)]),
        ],
    ),
];

#[test]
fn flaws_of_a_key_that_is_used_up(rt: HostRuntime) -> Result<(), Fail> {
    expect_sights(&rt, rt.alloc(), &KEY_IN_SIX, OF_A_KEY)
}

const OF_TWO_KEYS: &[Sight] = &[
    (
        &[
            Bring(1, 2, 2),
            Bring(2, 0, 0),
            Bring(1, 1, 1),
            Bring(4, 0, 0),
        ],
        &[
            (Gap::Threat(2, 0, 4), &[Post(4, 3), Post(2, 4)]),
            (Gap::Threat(4, 0, 2), &[Post(2, 5), Post(4, 2)]),
            (Gap::Clash(2, 4), &[Post(2, 4), Post(4, 2)]),
            (Gap::Clash(2, 5), &[Post(2, 5), Post(5, 2)]),
            (Gap::Clash(3, 4), &[Post(3, 4), Post(4, 3)]),
        ],
    ),
    (
        &[
            Bring(1, 2, 2),
            Bring(2, 0, 0),
            Bring(1, 1, 1),
            Bring(4, 0, 0),
            Post(2, 5),
            Post(2, 4),
            Post(3, 4),
        ],
        &[],
    ),
];

#[test]
fn flaws_of_two_keys(rt: HostRuntime) -> Result<(), Fail> {
    expect_sights(&rt, rt.alloc(), &KEY_IN_SIX, OF_TWO_KEYS)
}

fn is_dead_there(alloc: Global, scene: &Scene, edits: &[Edit]) -> Option<bool> {
    let task = task_of(alloc, scene)?;
    let sheet = sheet_of(alloc, &task, scene, edits)?;
    Some(is_dead(&sheet))
}

const DYING: &[(&[Edit], bool)] = &[
    (&[], false),
    // By the interval of a token.
    (&[Lo(Tok(2), At(8))], false),
    (&[Lo(Tok(2), At(9))], true),
    (&[Lo(Tok(3), Never)], true),
    (&[Hi(Tok(4), 0)], false),
    (&[Lo(Tok(4), At(1)), Hi(Tok(4), 0)], true),
    (&[Lo(Tok(1), At(11))], true),
    (&[Lo(Tok(0), At(1))], true),
    // By an empty list.
    (&[Take(2, 0, Tok(4))], true),
    (&[Take(3, 0, Tok(4))], false),
    (&[Take(3, 0, Tok(4)), Take(3, 0, Out(0))], true),
    (&[Take(1, 1, Tok(2))], true),
    // Not by an outside interval.
    (&[Lo(Out(0), Never)], false),
];

fn expect_deaths(
    rt: &impl Abort,
    alloc: Global,
    rows: &[(&'static [Edit], bool)],
) -> Result<(), Fail> {
    for row in rows {
        let found = is_dead_there(alloc, &WORKSHOP, row.0);
        assert_eq!(rt; found, Some(row.1));
    }
    Ok(())
}

#[test]
fn a_sheet_is_dead_by_an_interval_or_an_empty_list(rt: HostRuntime) -> Result<(), Fail> {
    expect_deaths(&rt, rt.alloc(), DYING)
}
