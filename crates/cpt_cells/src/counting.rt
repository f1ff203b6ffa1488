//! How many candidates a list has, and which.

ghost use Rattle.std.specs.Prelude.{◌≡◌, ◌&&◌, ◌==◌, ◌<◌, ◌≤◌, ◌^◌, ◌≢◌, ◌∷◌, [], ℕ, Some, true, false, length, slice_get, MatchOption};
ghost use Rattle.cpt_sheet.specs.View.{cands};
ghost use Rattle.cpt_calculus.specs.Rules.{IsToken};
ghost use Rattle.cpt_layout.specs.Places.{adders_at, atom_at, needs_at};
ghost use Rattle.cpt_block.specs.Blocks.{bit, list_in};
ghost use Rattle.cpt_cells.specs.Lists.{outs_in, tokens_in};

use crate::cells::Cells;
use cpt_sheet::Cand;

fn one_if(holds: bool) -> usize
    ensures value { result ≡ bit holds }
    ensures most { result ≤ 1 }
{
    if holds { 1 } else { 0 }
}

/// Whether what is listed behind so many others has this place.
fn is_nth(listed: bool, passed: usize, place: usize) -> bool
    ensures { result ≡ (listed && (passed == place)) }
{
    listed && passed == place
}

impl Cells {
    /// How many tokens are in a list.
    pub(crate) fn count_tokens(&self, x: u32, j: usize) -> usize
        requires token { x < length self.now.sheet.tokens }
        requires need { j < length (needs_at self.now.frame x) }
        ensures value { result ≡ length (tokens_in (list_in self.now.sheet x j) (length self.now.frame.kinds)) }
        ensures few { result < 2 ^ 32 }
    {
        let mut count = 0;
        for y in 0..self.tokens() {
            let listed = self.lists_token(x, j, y as u32);
            count += one_if(listed);
        }
        count
    }

    /// How many outside actions are in a list.
    pub(crate) fn count_outs(&self, x: u32, j: usize) -> usize
        requires token { x < length self.now.sheet.tokens }
        requires need { j < length (needs_at self.now.frame x) }
        ensures value { result ≡ length (outs_in (list_in self.now.sheet x j) (adders_at self.now.frame (atom_at self.now.frame x j))) }
        ensures few { result < 2 ^ 63 }
    {
        let mut count = 0;
        let atom = self.needs(x)[j];
        let first = self.outs_cell(x, j);
        for place in 0..self.adders(atom).len() {
            let listed = self.lists_behind(x, j, first, place);
            count += one_if(listed);
        }
        count
    }

    /// Whether an outside action is in a list.
    pub(crate) fn has_out(&self, x: u32, j: usize) -> bool
        requires token { x < length self.now.sheet.tokens }
        requires need { j < length (needs_at self.now.frame x) }
        ensures full { result ≡ true → list_in self.now.sheet x j ≢ [] }
        ensures other { result ≡ true → (y : ℕ) → list_in self.now.sheet x j ≢ Cand.Tok y ∷ [] }
        ensures none { result ≡ false → length (outs_in (list_in self.now.sheet x j) (adders_at self.now.frame (atom_at self.now.frame x j))) ≡ 0 }
    {
        let atom = self.needs(x)[j];
        let first = self.outs_cell(x, j);
        for place in 0..self.adders(atom).len() {
            if self.lists_behind(x, j, first, place) {
                return true;
            }
        }
        false
    }

    /// Whether a token is in a list.
    pub(crate) fn has_token(&self, x: u32, j: usize) -> bool
        requires token { x < length self.now.sheet.tokens }
        requires need { j < length (needs_at self.now.frame x) }
        ensures full { result ≡ true → list_in self.now.sheet x j ≢ [] }
        ensures none { result ≡ false → length (tokens_in (list_in self.now.sheet x j) (length self.now.frame.kinds)) ≡ 0 }
    {
        for y in 0..self.tokens() {
            if self.lists_token(x, j, y as u32) {
                return true;
            }
        }
        false
    }

    /// The one token of a list that has no outside action, where it is one token.
    fn only_token(&self, x: u32, j: usize) -> Option<u32>
        requires token { x < length self.now.sheet.tokens }
        requires need { j < length (needs_at self.now.frame x) }
        ensures { MatchOption result (length (tokens_in (list_in self.now.sheet x j) (length self.now.frame.kinds)) ≢ 1) (λ y. tokens_in (list_in self.now.sheet x j) (length self.now.frame.kinds) ≡ Cand.Tok y ∷ []) }
    {
        let mut found = None;
        for y in 0..self.tokens() {
            if self.lists_token(x, j, y as u32) {
                if found.is_some() {
                    return None;
                }
                found = Some(y as u32);
            }
        }
        found
    }

    /// How many candidates are left of a token for an atom.
    pub fn count(&self, x: u32, p: u32) -> usize
        requires { x < length self.now.sheet.tokens }
        ensures { result ≡ length (cands self.now.sheet x p) }
    {
        self.keeps_order(x, p);
        let j = self.place(x, p);
        if j < self.needs(x).len() {
            self.count_tokens(x, j) + self.count_outs(x, j)
        } else {
            0
        }
    }

    /// The token at a place of a list.
    fn nth_token(&self, x: u32, j: usize, place: usize) -> u32
        requires token { x < length self.now.sheet.tokens }
        requires need { j < length (needs_at self.now.frame x) }
        requires place { place < length (tokens_in (list_in self.now.sheet x j) (length self.now.frame.kinds)) }
        ensures { slice_get (tokens_in (list_in self.now.sheet x j) (length self.now.frame.kinds)) place ≡ Some (Cand.Tok result) }
    {
        let mut passed = 0;
        for y in 0..self.tokens() {
            let listed = self.lists_token(x, j, y as u32);
            if is_nth(listed, passed, place) {
                return y as u32;
            }
            passed += one_if(listed);
        }
        0
    }

    /// The outside action at a place behind the tokens of a list.
    fn nth_out(&self, x: u32, j: usize, place: usize) -> u32
        requires token { x < length self.now.sheet.tokens }
        requires need { j < length (needs_at self.now.frame x) }
        requires place { place < length (outs_in (list_in self.now.sheet x j) (adders_at self.now.frame (atom_at self.now.frame x j))) }
        ensures { slice_get (outs_in (list_in self.now.sheet x j) (adders_at self.now.frame (atom_at self.now.frame x j))) place ≡ Some (Cand.Out result) }
    {
        let mut passed = 0;
        let atom = self.needs(x)[j];
        let first = self.outs_cell(x, j);
        for i in 0..self.adders(atom).len() {
            let a = self.adders(atom)[i];
            let listed = self.lists_behind(x, j, first, i);
            if is_nth(listed, passed, place) {
                return a;
            }
            passed += one_if(listed);
        }
        0
    }

    /// The candidate at a place of the list of a token for an atom.
    pub fn cand(&self, x: u32, p: u32, place: usize) -> Cand
        requires token { x < length self.now.sheet.tokens }
        requires place { place < length (cands self.now.sheet x p) }
        ensures { slice_get (cands self.now.sheet x p) place ≡ Some result }
    {
        self.keeps_order(x, p);
        let j = self.place(x, p);
        let tokens = self.count_tokens(x, j);
        if place < tokens {
            Cand::Tok(self.nth_token(x, j, place))
        } else {
            Cand::Out(self.nth_out(x, j, place - tokens))
        }
    }

    /// The first candidate of a token for an atom.
    pub fn first(&self, x: u32, p: u32) -> Option<Cand>
        requires { x < length self.now.sheet.tokens }
        ensures { result ≡ slice_get (cands self.now.sheet x p) 0 }
    {
        let count = self.count(x, p);
        if count > 0 {
            Some(self.cand(x, p, 0))
        } else {
            None
        }
    }

    /// The one token of the list of a token for an atom, where it is one token.
    pub fn supplier(&self, x: u32, p: u32) -> Option<u32>
        requires { x < length self.now.sheet.tokens }
        ensures { MatchOption result ((y : ℕ) → IsToken (cands self.now.sheet x p) y → ⊥) (λ y. IsToken (cands self.now.sheet x p) y) }
    {
        self.keeps_order(x, p);
        let j = self.place(x, p);
        if j >= self.needs(x).len() {
            return None;
        }
        if self.has_out(x, j) {
            return None;
        }
        self.only_token(x, j)
    }
}
