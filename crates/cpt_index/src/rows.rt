//! Rows of items, with spare room.

ghost use Rattle.std.specs.Prelude.{◌≡◌, ◌≢◌, ◌<◌, ℕ, [], length, All, slice_set, slice_index_or, IfOk, OnOk};
ghost use Rattle.std.specs.List.Sorted.{IsStrictlyIncreasing};
ghost use Rattle.cpt_index.specs.Rows.{HasSpare, HasSpares, IsEditedAt, contents, row_at, spares, with_last, without_last};

use cpt_task::{List, Memory};
use std::alloc::Global;

/// Rows with nothing in them.
pub(crate) fn empty_rows<T: Drop>(alloc: Global, count: usize) -> Result<List<Vec<T>>, Memory>
    ensures count { IfOk result (λ rows. length (contents rows) ≡ count) }
    ensures each { IfOk result (λ rows. (p : ℕ) → row_at (contents rows) p ≡ []) }
{
    let mut rows = Vec::new(alloc);
    for place in 0..count {
        let _ = place;
        rows.push(Vec::new(alloc))?;
    }
    Ok(List::from_vec(rows))
}

fn reserve_at<T: Drop>(rows: &mut List<Vec<T>>, p: u32) -> Result<(), Memory>
    requires { p < length rows.old }
    ensures rows { contents rows.new ≡ contents rows.old }
    ensures others { (q : ℕ) → HasSpare rows.old q → HasSpare rows.new q }
    ensures room { OnOk result (HasSpare rows.new p) }
{
    let row = rows.get_mut(p as usize);
    row.reserve(1)?;
    Ok(())
}

/// Room for one item more in each of these rows.
pub(crate) fn reserve_each<T: Drop>(rows: &mut List<Vec<T>>, at: &[u32]) -> Result<(), Memory>
    requires { All (λ p. p < length rows.old) at.now }
    ensures rows { contents rows.new ≡ contents rows.old }
    ensures room { OnOk result (HasSpares rows.new at.now) }
{
    for p in at {
        reserve_at(rows, *p)?;
    }
    Ok(())
}

fn push_at<T: Drop>(rows: &mut List<Vec<T>>, p: u32, item: T)
    requires { HasSpare rows.old p }
    ensures rows { contents rows.new ≡ slice_set (contents rows.old) p (with_last item (row_at (contents rows.old) p)) }
    ensures others { (q : ℕ) → q ≢ p → HasSpare rows.old q → HasSpare rows.new q }
{
    let row = rows.get_mut(p as usize);
    row.push_reserved(item);
}

/// Puts the item at the end of each of these rows. It takes no memory.
pub(crate) fn push_each<T: Copy + Drop>(rows: &mut List<Vec<T>>, at: &[u32], item: T)
    requires once { IsStrictlyIncreasing at.now }
    requires room { HasSpares rows.old at.now }
    ensures { IsEditedAt (with_last item) at.now (contents rows.old) (contents rows.new) }
{
    for p in at {
        push_at(rows, *p, item);
    }
}

fn pop_at<T: Drop>(rows: &mut List<Vec<T>>, p: u32)
    requires { p < length rows.old }
    ensures { contents rows.new ≡ slice_set (contents rows.old) p (without_last (row_at (contents rows.old) p)) }
{
    let row = rows.get_mut(p as usize);
    let _ = row.pop();
}

/// Takes the last item off each of these rows. It takes no memory.
pub(crate) fn pop_each<T: Drop>(rows: &mut List<Vec<T>>, at: &[u32])
    requires once { IsStrictlyIncreasing at.now }
    requires within { All (λ p. p < length rows.old) at.now }
    ensures { IsEditedAt without_last at.now (contents rows.old) (contents rows.new) }
{
    for p in at {
        pop_at(rows, *p);
    }
}

/// The row of a number; none past the last one.
pub(crate) fn row<T>(rows: &List<Vec<T>>, p: u32) -> &[T]
    ensures { result.now ≡ row_at (contents rows.now) p }
{
    match rows.as_slice().get(p as usize) {
        Some(row) => row.as_slice(),
        None => &[],
    }
}
