//! Cells that are written and taken back.

ghost use Rattle.std.specs.Prelude.{◌≡◌, ◌+◌, ◌<◌, ◌≤◌, length};

use cpt_task::Steps;
use cpt_trail::Trail;
use rand_core::utils::NextWord;
use rand_pcg::Pcg32;
use std::alloc::Global;
use std::marker::Brand;
use std::process::Abort;
use std::sync::ledger::{Blank, Ledger};
use std::test::Fail;

/// Two writes of one cell keep one entry: what was there at the mark comes back at one step.
fn write_twice<L: Ledger>(rt: &impl Abort, alloc: Global, blank: Blank) -> Result<(), Fail>
    requires name { blank.name ≡ L.name }
    requires parts { blank.parts ≡ L.parts }
    requires some { 0 < L.parts }
{
    let mut steps = Steps::<L>::new(blank);
    let mut trail = Trail::new(alloc);
    trail.reserve(2, 2, 1)?;
    let first = trail.append(5);
    let second = trail.append(7);
    let mark = trail.mark();
    assert_eq!(rt; mark, 0);
    trail.write(first, 9, &mut steps);
    trail.write(first, 11, &mut steps);
    assert_eq!(rt; trail.get(first), 11);
    trail.undo_to(mark, &mut steps);
    trail.reserve(1, 0, 0)?;
    let third = trail.append(3);
    assert_eq!(rt; (first, second, third), (0, 1, 2));
    assert_eq!(rt; trail.get(first), 5);
    assert_eq!(rt; trail.get(second), 7);
    Ok(())
}

#[test]
fn the_first_value_comes_back(rt: HostRuntime) -> Result<(), Fail> {
    write_twice::<Brand>(&rt, rt.alloc(), Blank::new(1))
}

/// Writes some number to some cell of both.
fn write_both<L: Ledger>(
    trail: &mut Trail,
    plain: &mut [u64],
    word: u32,
    steps: &mut Steps<L>,
) -> Result<(), Fail>
    requires some { 0 < length plain.old }
    requires there { length plain.old ≤ length trail.old.cells }
    ensures cells { length trail.new.cells ≡ length trail.old.cells }
{
    let cell = word as usize % plain.len();
    trail.reserve(0, 1, 0)?;
    trail.write(cell, word as u64, steps);
    plain[cell] = word as u64;
    Ok(())
}

/// The trail has the numbers of the list, and perhaps further cells.
fn expect_cells(rt: &impl Abort, trail: &Trail, plain: &[u64], round: u32)
    requires { length plain.now ≤ length trail.now.cells }
{
    for (cell, value) in plain.iter().enumerate() {
        assert_eq!(rt; trail.get(cell), *value, "cell {cell} in round {round}");
    }
}

/// Appends a cell to both and writes three, and compares before and after.
fn change_both<L: Ledger>(
    rt: &impl Abort,
    trail: &mut Trail,
    plain: &mut Vec<u64>,
    random: &mut Pcg32,
    steps: &mut Steps<L>,
    round: u32,
) -> Result<(), Fail> {
    let word = random.next_word();
    trail.reserve(1, 0, 0)?;
    let cell = trail.append(word as u64);
    assert_eq!(rt; cell, plain.len());
    plain.push(word as u64)?;
    expect_cells(rt, trail, plain.as_slice(), round);
    write_both(trail, plain.as_mut_slice(), random.next_word(), steps)?;
    write_both(trail, plain.as_mut_slice(), random.next_word(), steps)?;
    write_both(trail, plain.as_mut_slice(), random.next_word(), steps)?;
    expect_cells(rt, trail, plain.as_slice(), round);
    Ok(())
}

/// Marks, and in one round of three goes back to some mark; beside the trail, lists are copied.
fn walk<L: Ledger>(rt: &impl Abort, alloc: Global, rounds: u32, blank: Blank) -> Result<(), Fail>
    requires name { blank.name ≡ L.name }
    requires parts { blank.parts ≡ L.parts }
    requires some { 0 < L.parts }
{
    let mut steps = Steps::<L>::new(blank);
    let mut random = Pcg32::new(42, 54);
    let mut trail = Trail::new(alloc);
    let mut plain = Vec::new(alloc);
    let mut copies: Vec<Vec<u64>> = Vec::new(alloc);
    for round in 0..rounds {
        change_both(rt, &mut trail, &mut plain, &mut random, &mut steps, round)?;
        trail.reserve(0, 0, 1)?;
        let mark = trail.mark();
        assert_eq!(rt; mark, copies.len());
        copies.push(plain.clone()?)?;
        if random.next_word() % 3 == 0 {
            let older = random.next_word() as usize % (mark + 1);
            trail.undo_to(older, &mut steps);
            copies.truncate(older + 1);
            plain = copies.pop().ok_or("no copy")?;
        }
    }
    Ok(())
}

#[test]
fn marks_are_copies(rt: HostRuntime) -> Result<(), Fail> {
    walk::<Brand>(&rt, rt.alloc(), 300, Blank::new(1))
}
