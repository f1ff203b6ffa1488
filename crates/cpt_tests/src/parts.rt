//! The small types that the other crates stand on, at concrete types.

use cpt_task::{Action, BuildError, Ids, List, Name, Task, interfere};
use std::alloc::{AllocError, Global};
use std::process::Abort;
use std::test::Fail;

/// Puts 3 at the place 2, and says whether that is done.
fn inserts(list: &mut List<u32>) -> bool {
    list.as_slice().len() >= 2 && list.insert(2, 3).is_ok()
}

fn set_first(list: &mut List<u32>) {
    if !list.as_slice().is_empty() {
        *list.get_mut(0) = 7;
    }
}

/// Takes the second number out; 0 where there is none.
fn take_second(list: &mut List<u32>) -> u32 {
    if list.as_slice().len() < 2 {
        return 0;
    }
    list.remove(1)
}

/// Whether a list is changed at each of these places, and nowhere else.
fn is_changed(alloc: Global) -> Result<bool, AllocError> {
    let mut list = List::from_vec([1u32, 2, 4].to_vec(alloc)?);
    let is_inserted = inserts(&mut list) && list.as_slice() == [1, 2, 3, 4].as_slice();
    set_first(&mut list);
    let out = take_second(&mut list);
    let _ = list.allocator();
    Ok(is_inserted && out == 2 && list.into_vec().as_slice() == [7, 3, 4].as_slice())
}

#[test]
fn a_list_is_changed_at_a_place(rt: HostRuntime) -> Result<(), Fail> {
    let is_so = is_changed(rt.alloc())?;
    assert!(rt; is_so);
    Ok(())
}

fn ids(alloc: Global, numbers: &[u32]) -> Result<Ids, Fail> {
    match Ids::from_vec(numbers.to_vec(alloc)?) {
        Some(ids) => Ok(ids),
        None => Err("not increasing")?,
    }
}

fn name(alloc: Global, text: &[u8]) -> Result<Name, AllocError> {
    Ok(List::from_vec(text.to_vec(alloc)?))
}

/// What an action needs, adds and deletes.
type Lists = (&'static [u32], &'static [u32], &'static [u32]);

fn action(alloc: Global, dur: u32, lists: &Lists) -> Result<Action, Fail> {
    Ok(Action {
        name: name(alloc, b"(a)")?,
        dur,
        pre: ids(alloc, lists.0)?,
        add: ids(alloc, lists.1)?,
        dele: ids(alloc, lists.2)?,
    })
}

const USER: Lists = (&[0], &[1], &[]);

const TAKER: Lists = (&[0], &[2], &[0]);

const ADDER: Lists = (&[], &[0], &[]);

/// Two actions, and whether they interfere.
type Pair = (Lists, Lists, bool);

const PAIRS: &[Pair] = &[
    (USER, TAKER, true),
    (TAKER, USER, true),
    (TAKER, TAKER, true),
    (ADDER, TAKER, true),
    (USER, USER, false),
    (USER, ADDER, false),
];

fn do_interfere(alloc: Global, pair: &Pair) -> Result<bool, Fail> {
    let first = action(alloc, 1, &pair.0)?;
    let second = action(alloc, 1, &pair.1)?;
    Ok(interfere(&first, &second))
}

fn expect_pairs(rt: &impl Abort, alloc: Global, pairs: &[Pair]) -> Result<(), Fail> {
    for (place, pair) in pairs.iter().enumerate() {
        let is_so = do_interfere(alloc, pair)? == pair.2;
        assert!(rt; is_so, "pair {place}");
    }
    Ok(())
}

#[test]
fn actions_interfere_where_one_disturbs_the_other(rt: HostRuntime) -> Result<(), Fail> {
    expect_pairs(&rt, rt.alloc(), PAIRS)
}

fn one_atom(alloc: Global) -> Result<Vec<Name>, AllocError> {
    let mut atoms = Vec::new(alloc);
    atoms.push(name(alloc, b"(g)")?)?;
    Ok(atoms)
}

fn one_action(alloc: Global, dur: u32) -> Result<Vec<Action>, Fail> {
    let mut actions = Vec::new(alloc);
    actions.push(action(alloc, dur, &ADDER)?)?;
    Ok(actions)
}

/// Why a task of one atom, and of one action that adds it and lasts so long, is not built with this goal.
fn refusal(alloc: Global, dur: u32, goal: u32) -> Result<Option<BuildError>, Fail> {
    let atoms = one_atom(alloc)?;
    let actions = one_action(alloc, dur)?;
    if atoms.len() > 9 || actions.len() > 9 {
        return Err("too many")?;
    }
    match Task::build(atoms, actions, ids(alloc, &[])?, ids(alloc, &[goal])?) {
        Ok(_) => Ok(None),
        Err(error) => Ok(Some(error)),
    }
}

/// A duration, a goal, and what is wrong with them.
type Refused = (u32, u32, BuildError);

const REFUSED: &[Refused] = &[
    (1, 1, BuildError::BadAtom(2)),
    (0, 0, BuildError::BadDuration(0)),
    (100_001, 0, BuildError::BadDuration(0)),
];

fn expect_refused(rt: &impl Abort, alloc: Global, rows: &[Refused]) -> Result<(), Fail> {
    for row in rows {
        let is_so = refusal(alloc, row.0, row.1)? == Some(row.2);
        assert!(rt; is_so, "{} {}", row.0, row.1);
    }
    Ok(())
}

#[test]
fn a_task_is_built_where_its_numbers_are_in_range(rt: HostRuntime) -> Result<(), Fail> {
    expect_refused(&rt, rt.alloc(), REFUSED)?;
    let twice = Ids::from_vec([2u32, 2].to_vec(rt.alloc())?);
    assert!(rt; twice.is_none());
    Ok(())
}
