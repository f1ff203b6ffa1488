//! Who adds, deletes and needs each atom, and who interferes with each action: lists that grow and shrink in place.

ghost use Rattle.std.specs.Prelude.{◌≡◌, ◌<◌, ◌^◌, ◌++◌, ◌∷◌, [], if◌then◌else◌, length, take, IfOk, OnOk};
ghost use Rattle.std.specs.List.Sorted.{IsStrictlyIncreasing};
ghost use Rattle.cpt_sheet.specs.Roles.{adds_of, deletes_of, needs_of};
ghost use Rattle.cpt_index.specs.Index.{HasRoomFor, HasRows, HasSameRows, IsFoesOf, IsIndexOf, IsOutside, IsSeat, kinds_in, lists_at, nth_kind};
ghost use Rattle.cpt_index.specs.Rows.{HasSpares, contents, row_at, without_last};

use crate::rows::{empty_rows, pop_each, push_each, reserve_each, row};
use cpt_sheet::{Cand, Kind, clash};
use cpt_task::{List, Memory, Task};
use std::alloc::Global;

/// What a token stands for, and the actions that interfere with it.
#[derive(Drop)]
pub struct Seat {
    pub kind: Kind,
    pub foes: List<u32>,
}

/// Of each atom who adds it, and which tokens delete and need it; of each action the tokens that interfere with it; and
/// the tokens.
#[derive(Drop)]
pub struct Index {
    pub offers: List<Vec<Cand>>,
    pub deleters: List<Vec<u32>>,
    pub consumers: List<Vec<u32>>,
    pub rivals: List<Vec<u32>>,
    pub seats: Vec<Seat>,
}

fn kind_at(kinds: &[Kind], x: usize) -> Kind
    ensures { result ≡ nth_kind kinds.now x }
{
    match kinds.get(x) {
        Some(kind) => *kind,
        None => Kind::Start,
    }
}

/// What it adds, increasing.
fn adds_of(task: &Task, kind: Kind) -> &[u32]
    ensures value { result.now ≡ adds_of task.now kind }
    ensures increasing { IsStrictlyIncreasing (adds_of task.now kind) }
{
    match kind {
        Kind::Start => task.init(),
        Kind::End => &[],
        Kind::Act(a) => match task.actions().get(a as usize) {
            Some(action) => action.add.as_slice(),
            None => &[],
        },
    }
}

/// What it deletes, increasing.
fn deletes_of(task: &Task, kind: Kind) -> &[u32]
    ensures value { result.now ≡ deletes_of task.now kind }
    ensures increasing { IsStrictlyIncreasing (deletes_of task.now kind) }
{
    match kind {
        Kind::Start => &[],
        Kind::End => &[],
        Kind::Act(a) => match task.actions().get(a as usize) {
            Some(action) => action.dele.as_slice(),
            None => &[],
        },
    }
}

/// What it needs, increasing.
fn needs_of(task: &Task, kind: Kind) -> &[u32]
    ensures value { result.now ≡ needs_of task.now kind }
    ensures increasing { IsStrictlyIncreasing (needs_of task.now kind) }
{
    match kind {
        Kind::Start => &[],
        Kind::End => task.goal(),
        Kind::Act(a) => match task.actions().get(a as usize) {
            Some(action) => action.pre.as_slice(),
            None => &[],
        },
    }
}

/// Puts the item at the end where it belongs there.
fn put_if<T: Drop>(found: &mut Vec<T>, item: T, belongs: bool) -> Result<(), Memory>
    ensures { OnOk result (found.new.items ≡ (if belongs then found.old.items ++ item ∷ [] else found.old.items)) }
{
    if belongs {
        found.push(item)?;
    }
    Ok(())
}

/// The actions that interfere with it, increasing.
fn foes_of(alloc: Global, task: &Task, kind: Kind) -> Result<List<u32>, Memory>
    ensures { IfOk result (IsFoesOf task.now kind) }
{
    let mut found = Vec::new(alloc);
    for a in 0..task.actions().len() {
        let belongs = clash(task, kind, Kind::Act(a as u32));
        put_if(&mut found, a as u32, belongs)?;
    }
    Ok(List::from_vec(found))
}

/// Of each atom the outside actions that add it.
fn outside_offers(alloc: Global, task: &Task) -> Result<List<Vec<Cand>>, Memory>
    ensures { IfOk result (λ rows. IsOutside task.now task.now.actions (contents rows)) }
{
    let atoms = task.atoms();
    let mut rows = empty_rows(alloc, atoms.len())?;
    for a in 0..task.actions().len() {
        let adds = adds_of(task, Kind::Act(a as u32));
        reserve_each(&mut rows, adds)?;
        push_each(&mut rows, adds, Cand::Out(a as u32));
    }
    Ok(rows)
}

/// The lists of a task with no tokens.
fn bare(alloc: Global, task: &Task) -> Result<Index, Memory>
    ensures { IfOk result (IsIndexOf task.now []) }
{
    let atoms = task.atoms();
    let actions = task.actions();
    let offers = outside_offers(alloc, task)?;
    let deleters = empty_rows(alloc, atoms.len())?;
    let consumers = empty_rows(alloc, atoms.len())?;
    let rivals = empty_rows(alloc, actions.len())?;
    Ok(Index {
        offers,
        deleters,
        consumers,
        rivals,
        seats: Vec::new(alloc),
    })
}

/// The lists of a task and the kinds of its tokens.
pub fn index_of(alloc: Global, task: &Task, kinds: &[Kind]) -> Result<Index, Memory>
    requires { length kinds.now < 2 ^ 32 }
    ensures { IfOk result (IsIndexOf task.now kinds.now) }
{
    let mut index = bare(alloc, task)?;
    for x in 0..kinds.len() {
        let seat = index.reserve(task, kind_at(kinds, x))?;
        index.push(task, seat);
    }
    Ok(index)
}

impl Index {
    /// Room in each list that a token of this kind joins.
    fn reserve_rows(&mut self, task: &Task, kind: Kind, foes: &[u32]) -> Result<(), Memory>
        requires { HasRows task.now foes.now self.old }
        ensures same { HasSameRows self.old self.new }
        ensures offers { OnOk result (HasSpares self.new.offers (adds_of task.now kind)) }
        ensures deleters { OnOk result (HasSpares self.new.deleters (deletes_of task.now kind)) }
        ensures consumers { OnOk result (HasSpares self.new.consumers (needs_of task.now kind)) }
        ensures rivals { OnOk result (HasSpares self.new.rivals foes.now) }
    {
        reserve_each(&mut self.offers, adds_of(task, kind))?;
        reserve_each(&mut self.deleters, deletes_of(task, kind))?;
        reserve_each(&mut self.consumers, needs_of(task, kind))?;
        reserve_each(&mut self.rivals, foes)?;
        Ok(())
    }

    /// Room for a token of this kind. The lists stay, after `Memory` too.
    pub fn reserve(&mut self, task: &Task, kind: Kind) -> Result<Seat, Memory>
        requires { IsIndexOf task.now (kinds_in self.old) self.old }
        ensures same { IsIndexOf task.now (kinds_in self.old) self.new }
        ensures kind { IfOk result (λ z. z.kind ≡ kind) }
        ensures foes { IfOk result (IsSeat task.now) }
        ensures room { IfOk result (HasRoomFor task.now self.new) }
    {
        let foes = foes_of(*self.seats.allocator(), task, kind)?;
        self.seats.reserve(1)?;
        self.reserve_rows(task, kind, foes.as_slice())?;
        Ok(Seat { kind, foes })
    }

    /// A token more, for which there is room. It takes no memory.
    pub fn push(&mut self, task: &Task, seat: Seat)
        requires index { IsIndexOf task.now (kinds_in self.old) self.old }
        requires seat { IsSeat task.now seat }
        requires room { HasRoomFor task.now self.old seat }
        requires few { length (kinds_in self.old) < 2 ^ 32 }
        ensures { IsIndexOf task.now (kinds_in self.old ++ seat.kind ∷ []) self.new }
    {
        let number = self.seats.len() as u32;
        push_each(
            &mut self.offers,
            adds_of(task, seat.kind),
            Cand::Tok(number),
        );
        push_each(&mut self.deleters, deletes_of(task, seat.kind), number);
        push_each(&mut self.consumers, needs_of(task, seat.kind), number);
        push_each(&mut self.rivals, seat.foes.as_slice(), number);
        self.seats.push_reserved(seat);
    }

    /// Takes the last token off, if there is one. It takes no memory.
    pub fn pop(&mut self, task: &Task)
        requires { IsIndexOf task.now (kinds_in self.old) self.old }
        ensures { IsIndexOf task.now (without_last (kinds_in self.old)) self.new }
    {
        match self.seats.pop() {
            Some(seat) => {
                pop_each(&mut self.offers, adds_of(task, seat.kind));
                pop_each(&mut self.deleters, deletes_of(task, seat.kind));
                pop_each(&mut self.consumers, needs_of(task, seat.kind));
                pop_each(&mut self.rivals, seat.foes.as_slice());
            }
            None => {}
        }
    }

    /// Leaves only so many of the first tokens. It takes no memory.
    pub fn shorten(&mut self, task: &Task, count: usize)
        requires { IsIndexOf task.now (kinds_in self.old) self.old }
        ensures { IsIndexOf task.now (take count (kinds_in self.old)) self.new }
    {
        let extra = self.seats.len().saturating_sub(count);
        for place in 0..extra {
            let _ = place;
            self.pop(task);
        }
    }

    /// Who adds the atom.
    pub fn offers(&self, p: u32) -> &[Cand]
        ensures { result.now ≡ (lists_at self.now p).offers }
    {
        row(&self.offers, p)
    }

    /// The tokens that delete the atom.
    pub fn deleters(&self, p: u32) -> &[u32]
        ensures { result.now ≡ (lists_at self.now p).deleters }
    {
        row(&self.deleters, p)
    }

    /// The tokens that need the atom.
    pub fn consumers(&self, p: u32) -> &[u32]
        ensures { result.now ≡ (lists_at self.now p).consumers }
    {
        row(&self.consumers, p)
    }

    /// The tokens that interfere with the action.
    pub fn rivals(&self, act: u32) -> &[u32]
        ensures { result.now ≡ row_at (contents self.now.rivals) act }
    {
        row(&self.rivals, act)
    }
}
