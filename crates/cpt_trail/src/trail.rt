//! Cells that are written and taken back.

ghost use Rattle.std.specs.Prelude.{◌≡◌, ◌+◌, ◌<◌, ◌≤◌, ◌++◌, ◌∷◌, [], length, slice_index, slice_set, true, OnOk, if◌then◌else◌};
ghost use Rattle.cpt_trail.specs.Trails.{Mark, keeps, with_kept, entries_of, IsBackTo};

use crate::entries::{Entry, Level, keep, rewind};
use cpt_task::{Memory, Steps};
use std::alloc::Global;
use std::marker::Model;
use std::sync::ledger::Ledger;

/// Cells, and marks to which they can go back. The stamp of a cell is the number of marks that stood when its newest
/// entry was kept or, where it has none, when it was appended: so a write keeps an entry exactly where the stamp is
/// below the number of marks.
#[derive(Drop)]
pub struct Trail {
    values: Vec<u64>,
    stamps: Vec<usize>,
    entries: Vec<Entry>,
    levels: Vec<Level>,
}

impl Model for Trail {
    ghost use Rattle.cpt_trail.specs.Trails.{TrailShape};

    ghost Value = { TrailShape };

    ghost use Rattle.cpt_trail.specs.Cells.{shape_of, IsSound};

    ghost view = { shape_of };

    ghost invariant = { IsSound };
}

impl Trail {
    /// No cell and no mark. It takes no memory.
    pub fn new(alloc: Global) -> Trail
        ensures cells { result.cells ≡ [] }
        ensures marks { result.marks ≡ [] }
    {
        Trail {
            values: Vec::new(alloc),
            stamps: Vec::new(alloc),
            entries: Vec::new(alloc),
            levels: Vec::new(alloc),
        }
    }

    /// At least so much spare room for cells, entries and marks. The cells and the marks stay, and no room shrinks.
    pub fn reserve(&mut self, cells: usize, entries: usize, marks: usize) -> Result<(), Memory>
        ensures cells { self.new.cells ≡ self.old.cells }
        ensures marks { self.new.marks ≡ self.old.marks }
        ensures cell_room { OnOk result (cells ≤ self.new.cell_room) }
        ensures entry_room { OnOk result (entries ≤ self.new.entry_room) }
        ensures mark_room { OnOk result (marks ≤ self.new.mark_room) }
        ensures keeps_cell_room { self.old.cell_room ≤ self.new.cell_room }
        ensures keeps_entry_room { self.old.entry_room ≤ self.new.entry_room }
        ensures keeps_mark_room { self.old.mark_room ≤ self.new.mark_room }
    {
        self.values.reserve(cells)?;
        self.stamps.reserve(cells)?;
        self.entries.reserve(entries)?;
        self.levels.reserve(marks)?;
        Ok(())
    }

    /// A new cell behind the others, and its number.
    pub fn append(&mut self, value: u64) -> usize
        requires { 0 < self.old.cell_room }
        ensures number { result ≡ length self.old.cells }
        ensures cells { self.new.cells ≡ self.old.cells ++ value ∷ [] }
        ensures marks { self.new.marks ≡ self.old.marks }
        ensures cell_room { self.new.cell_room + 1 ≡ self.old.cell_room }
        ensures entry_room { self.new.entry_room ≡ self.old.entry_room }
        ensures mark_room { self.new.mark_room ≡ self.old.mark_room }
    {
        let cell = self.values.len();
        let stands = self.levels.len();
        self.values.push_reserved(value);
        self.stamps.push_reserved(stands);
        cell
    }

    /// The number in a cell.
    pub fn get(&self, cell: usize) -> u64
        requires { cell < length self.now.cells }
        ensures { result ≡ slice_index self.now.cells cell }
    {
        self.values[cell]
    }

    /// Writes a cell, and ticks once. An entry is kept at the first write of a cell since the newest mark, where the
    /// cell was there at that mark.
    pub fn write<L: Ledger>(&mut self, cell: usize, value: u64, steps: &mut Steps<L>)
        requires there { cell < length self.old.cells }
        requires room { keeps cell self.old.marks ≡ true → 0 < self.old.entry_room }
        ensures cells { self.new.cells ≡ slice_set self.old.cells cell value }
        ensures marks { self.new.marks ≡ (if keeps cell self.old.marks then with_kept cell self.old.marks else self.old.marks) }
        ensures cell_room { self.new.cell_room ≡ self.old.cell_room }
        ensures entry_room { self.new.entry_room + (if keeps cell self.old.marks then 1 else 0) ≡ self.old.entry_room }
        ensures mark_room { self.new.mark_room ≡ self.old.mark_room }
        ensures ticks { steps.new ≡ steps.old + 1 }
    {
        steps.tick();
        let stands = self.levels.len();
        let old = self.values[cell];
        keep(&mut self.entries, &mut self.stamps, stands, cell, old);
        self.values[cell] = value;
    }

    /// A new mark. The answer is how many stood before.
    pub fn mark(&mut self) -> usize
        requires { 0 < self.old.mark_room }
        ensures number { result ≡ length self.old.marks }
        ensures cells { self.new.cells ≡ self.old.cells }
        ensures marks { self.new.marks ≡ self.old.marks ++ record { cells = self.old.cells; kept = [] } ∷ [] }
        ensures cell_room { self.new.cell_room ≡ self.old.cell_room }
        ensures entry_room { self.new.entry_room ≡ self.old.entry_room }
        ensures mark_room { self.new.mark_room + 1 ≡ self.old.mark_room }
    {
        let stands = self.levels.len();
        self.levels.push_reserved(Level {
            cells: self.values.len(),
            entries: self.entries.len(),
        });
        stands
    }

    /// Goes back to the mark: it and all newer marks are gone. It ticks once an entry of these marks, and takes no
    /// memory.
    pub fn undo_to<L: Ledger>(&mut self, mark: usize, steps: &mut Steps<L>)
        requires { mark < length self.old.marks }
        ensures back { IsBackTo mark self.old self.new }
        ensures ticks { steps.new + entries_of self.new.marks ≡ steps.old + entries_of self.old.marks }
    {
        self.undo_newest(steps);
        while mark < self.stands() {
            self.undo_newest(steps);
        }
    }

    /// How many marks stand.
    fn stands(&self) -> usize
        ensures { result ≡ length self.now.marks }
    {
        self.levels.len()
    }

    /// Goes back to the newest mark, which is gone then.
    fn undo_newest<L: Ledger>(&mut self, steps: &mut Steps<L>)
        requires { 0 < length self.old.marks }
        ensures back { IsBackTo (length self.new.marks) self.old self.new }
        ensures one { length self.old.marks ≡ length self.new.marks + 1 }
        ensures ticks { steps.new + entries_of self.new.marks ≡ steps.old + entries_of self.old.marks }
    {
        if let Some(level) = self.levels.pop() {
            rewind(
                &mut self.entries,
                level,
                &mut self.values,
                &mut self.stamps,
                steps,
            );
        }
    }
}
