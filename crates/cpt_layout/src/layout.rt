//! Which cell holds what.

ghost use Rattle.std.specs.Prelude.{◌≡◌, ◌≢◌, ◌<◌, ◌≤◌, ◌+◌, ◌*◌, ◌^◌, ◌==◌, ◌++◌, ◌∷◌, [], ℕ, true, false, slice_index, slice_index_or, length, vec_len, vec_capacity, OnOk};
ghost use Rattle.cpt_layout.specs.Places.{place_in, table, needs_by_lists};
ghost use Rattle.cpt_layout.specs.Numbers.{own_cells};

use cpt_sheet::{Cand, Kind};
use cpt_task::{List, Memory};
use std::alloc::Global;
use std::marker::Model;

/// Where the cells of each token begin. The static lists say what each action and the end need, and who adds an atom.
#[derive(Drop)]
pub struct Layout {
    bound: u64,
    pre: List<List<u32>>,
    goal: List<u32>,
    adders: List<List<u32>>,
    kinds: Vec<Kind>,
    bases: Vec<usize>,
    firsts: Vec<usize>,
    heads: Vec<usize>,
}

impl Model for Layout {
    ghost use Rattle.cpt_layout.specs.Shapes.{LayoutShape};

    ghost Value = { LayoutShape };

    ghost use Rattle.cpt_layout.specs.Laid.{shape_of, IsSound};

    ghost view = { shape_of };

    ghost invariant = { IsSound };
}

impl Layout {
    ghost use Rattle.cpt_layout.specs.Places.{out_lo, out_hi, tok_lo, tok_hi, order, member, needs_at, needs_by, adders_at, kind_at, IsThere, NoTwice, extended, cut};
    ghost use Rattle.cpt_layout.specs.Numbers.{cell_of, cells_in, base, needs_before, head};

    /// The layout of no token, where these are what each action and the end need, and who adds each atom. It takes no
    /// memory.
    pub fn new(
        alloc: Global,
        bound: u64,
        pre: List<List<u32>>,
        goal: List<u32>,
        adders: List<List<u32>>,
    ) -> Layout
        requires { (p : ℕ) → NoTwice (slice_index_or adders p []) }
        ensures { result.frame ≡ record { bound = bound; pre = pre; goal = goal; adders = adders; kinds = [] } }
    {
        Layout {
            bound,
            pre,
            goal,
            adders,
            kinds: Vec::new(alloc),
            bases: Vec::new(alloc),
            firsts: Vec::new(alloc),
            heads: Vec::new(alloc),
        }
    }

    /// The greatest makespan.
    pub fn bound(&self) -> u64
        ensures { result ≡ self.now.frame.bound }
    {
        self.bound
    }

    /// How many tokens there are.
    pub fn tokens(&self) -> usize
        ensures { result ≡ length self.now.frame.kinds }
    {
        self.kinds.len()
    }

    /// What a token stands for.
    pub fn kind(&self, x: u32) -> Kind
        requires { x < length self.now.frame.kinds }
        ensures { result ≡ kind_at self.now.frame x }
    {
        match self.kinds.as_slice().get(x as usize) {
            Some(kind) => *kind,
            None => Kind::Start,
        }
    }

    /// Where the interval of an outside action stands.
    pub fn out_cell(&self, a: u32) -> usize
        requires { a < length self.now.frame.pre }
        ensures lo { result ≡ cell_of self.now.frame (out_lo a) }
        ensures hi { result + 1 ≡ cell_of self.now.frame (out_hi a) }
    {
        2 * a as usize
    }

    /// Where the cells of a token begin.
    fn base_at(&self, x: u32) -> usize
        requires { x < length self.now.frame.kinds }
        ensures { result ≡ base self.now.frame x }
    {
        self.bases.as_slice()[x as usize]
    }

    /// How many needs stand before those of a token.
    fn first_at(&self, x: u32) -> usize
        requires { x < length self.now.frame.kinds }
        ensures { result ≡ needs_before self.now.frame x }
    {
        self.firsts.as_slice()[x as usize]
    }

    /// Where the interval of a token stands.
    pub fn tok_cell(&self, x: u32) -> usize
        requires { x < length self.now.frame.kinds }
        ensures lo { result ≡ cell_of self.now.frame (tok_lo x) }
        ensures hi { result + 1 ≡ cell_of self.now.frame (tok_hi x) }
    {
        self.base_at(x)
    }

    /// Where it stands whether the first token is before the second.
    pub fn order_cell(&self, x: u32, y: u32) -> usize
        requires there { IsThere self.now.frame (order x y) }
        requires fits { cells_in self.now.frame < 2 ^ 64 }
        ensures { result ≡ cell_of self.now.frame (order x y) }
    {
        if x < y {
            self.base_at(y) + (2 + 2 * x as usize)
        } else {
            self.base_at(x) + (3 + 2 * y as usize)
        }
    }

    /// What a token needs.
    pub fn needs(&self, x: u32) -> &[u32]
        requires { x < length self.now.frame.kinds }
        ensures { result.now ≡ needs_at self.now.frame x }
    {
        let kind = self.kind(x);
        needs_of_kind(self.pre.as_slice(), self.goal.as_slice(), kind)
    }

    /// How many needs of all tokens stand before this one.
    fn number_of(&self, x: u32, j: usize) -> usize
        requires token { x < length self.now.frame.kinds }
        requires need { j < length (needs_at self.now.frame x) }
        ensures { result ≡ needs_before self.now.frame x + j }
    {
        let heads = self.heads.as_slice();
        let _count = heads.len();
        let first = self.first_at(x);
        first + j
    }

    /// Where the cells of a need begin.
    fn head_at(&self, x: u32, j: usize) -> usize
        requires token { x < length self.now.frame.kinds }
        requires need { j < length (needs_at self.now.frame x) }
        ensures { result ≡ head self.now.frame x j }
    {
        let number = self.number_of(x, j);
        self.heads.as_slice()[number]
    }

    /// Where it stands whether a token is a candidate of a need.
    pub fn token_cand_cell(&self, x: u32, j: usize, y: u32) -> usize
        requires there { IsThere self.now.frame (member x j (Cand.Tok y)) }
        requires fits { cells_in self.now.frame < 2 ^ 64 }
        ensures { result ≡ cell_of self.now.frame (member x j (Cand.Tok y)) }
    {
        if y < x {
            self.head_at(x, j) + (2 + y as usize)
        } else {
            self.base_at(y) + (2 + 2 * y as usize + self.number_of(x, j))
        }
    }

    /// The actions that add an atom.
    pub fn adders(&self, p: u32) -> &[u32]
        ensures adders { result.now ≡ adders_at self.now.frame p }
        ensures once { NoTwice (adders_at self.now.frame p) }
    {
        match self.adders.as_slice().get(p as usize) {
            Some(list) => list.as_slice(),
            None => &[],
        }
    }

    /// Where it stands whether an outside action is a candidate of a need.
    pub fn out_cand_cell(&self, x: u32, j: usize, a: u32) -> usize
        requires there { IsThere self.now.frame (member x j (Cand.Out a)) }
        requires fits { cells_in self.now.frame < 2 ^ 64 }
        ensures { result ≡ cell_of self.now.frame (member x j (Cand.Out a)) }
    {
        let place = place_of(self.adders(self.needs(x)[j]), a);
        self.head_at(x, j) + (2 + x as usize + place)
    }

    /// How many cells the outside actions take.
    pub fn out_cells(&self) -> usize
        requires { cells_in self.now.frame < 2 ^ 64 }
        ensures { result ≡ 2 * length self.now.frame.pre }
    {
        2 * self.pre.as_slice().len()
    }

    /// Where the cells of the first `tokens` tokens end, where `end` is where the cells of all end.
    pub fn end_at(&self, tokens: usize, end: usize) -> usize
        requires tokens { tokens ≤ length self.now.frame.kinds }
        requires end { end ≡ cells_in self.now.frame }
        ensures { result ≡ base self.now.frame tokens }
    {
        if tokens < self.kinds.len() {
            self.bases.as_slice()[tokens]
        } else {
            end
        }
    }

    /// A token more, behind the others. `end` is where the cells end so far.
    pub fn push(&mut self, kind: Kind, end: usize)
        requires token_room { 0 < self.old.token_room }
        requires need_room { length (needs_by self.old.frame kind) ≤ self.old.need_room }
        requires end { end ≡ cells_in self.old.frame }
        requires fits { cells_in (extended self.old.frame (kind ∷ [])) < 2 ^ 64 }
        ensures frame { self.new.frame ≡ extended self.old.frame (kind ∷ []) }
        ensures token_room { self.new.token_room + 1 ≡ self.old.token_room }
        ensures need_room { self.new.need_room + length (needs_by self.old.frame kind) ≡ self.old.need_room }
    {
        let token = self.kinds.len();
        let first = self.heads.len();
        let needs = needs_of_kind(self.pre.as_slice(), self.goal.as_slice(), kind);
        push_heads(
            &mut self.heads,
            needs,
            self.adders.as_slice(),
            token,
            end + (2 + 2 * token + first),
        );
        self.kinds.push_reserved(kind);
        self.bases.push_reserved(end);
        self.firsts.push_reserved(first);
    }

    /// Only the first `tokens` tokens stay. The room of the others is spare again.
    pub fn truncate(&mut self, tokens: usize)
        requires { tokens ≤ length self.old.frame.kinds }
        ensures frame { self.new.frame ≡ cut self.old.frame tokens }
        ensures token_room { self.new.token_room + tokens ≡ self.old.token_room + length self.old.frame.kinds }
        ensures need_room { self.new.need_room + needs_before self.old.frame tokens ≡ self.old.need_room + needs_before self.old.frame (length self.old.frame.kinds) }
    {
        if tokens < self.kinds.len() {
            let needs = self.firsts.as_slice()[tokens];
            self.heads.truncate(needs);
            self.firsts.truncate(tokens);
            self.bases.truncate(tokens);
            self.kinds.truncate(tokens);
        }
    }

    /// At least so much spare room for tokens and for their needs. No room shrinks.
    pub fn reserve(&mut self, tokens: usize, needs: usize) -> Result<(), Memory>
        ensures frame { self.new.frame ≡ self.old.frame }
        ensures token_room { OnOk result (tokens ≤ self.new.token_room) }
        ensures need_room { OnOk result (needs ≤ self.new.need_room) }
        ensures keeps_token_room { self.old.token_room ≤ self.new.token_room }
        ensures keeps_need_room { self.old.need_room ≤ self.new.need_room }
    {
        self.kinds.reserve(tokens)?;
        self.bases.reserve(tokens)?;
        self.firsts.reserve(tokens)?;
        self.heads.reserve(needs)?;
        Ok(())
    }
}

/// The place of the first number that is p, or the length where none is.
pub fn place_of(list: &[u32], p: u32) -> usize
    ensures within { result ≤ length list.now }
    ensures none_before { (k : ℕ) → k < result → (slice_index list.now k == p) ≡ false }
    ensures here { result < length list.now → (slice_index list.now result == p) ≡ true }
    ensures place { result ≡ place_in p list.now }
{
    for (i, q) in list.iter().enumerate() {
        if *q == p {
            return i;
        }
    }
    list.len()
}

/// What a token of this kind needs.
fn needs_of_kind<'a>(pre: &'a [List<u32>], goal: &'a [u32], kind: Kind) -> &'a [u32]
    ensures { result.now ≡ needs_by_lists pre.now goal.now kind }
{
    match kind {
        Kind::End => goal,
        Kind::Act(a) => match pre.get(a as usize) {
            Some(list) => list.as_slice(),
            None => &[],
        },
        Kind::Start => &[],
    }
}

/// How many actions add the atom.
fn count_adders(adders: &[List<u32>], p: u32) -> usize
    ensures { result ≡ length (slice_index_or adders.now p []) }
{
    match adders.get(p as usize) {
        Some(list) => list.as_slice().len(),
        None => 0,
    }
}

/// Notes where the cells of each of these needs of a token begin.
fn push_heads(
    heads: &mut Vec<usize>,
    needs: &[u32],
    adders: &[List<u32>],
    token: usize,
    first: usize,
)
    requires room { vec_len heads.old + length needs.now ≤ vec_capacity heads.old }
    requires fits { first + own_cells adders.now token needs.now (length needs.now) < 2 ^ 64 }
    ensures items { heads.new.items ≡ heads.old.items ++ table (λ j. first + own_cells adders.now token needs.now j) 0 (length needs.now) }
    ensures capacity { vec_capacity heads.new ≡ vec_capacity heads.old }
{
    let mut next = first;
    for p in needs {
        heads.push_reserved(next);
        next += 2 + token + count_adders(adders, *p);
    }
}
