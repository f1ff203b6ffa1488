//! Whether a sheet in cells is dead.

ghost use Rattle.std.specs.Prelude.{◌≡◌, ◌≢◌, ◌<◌, [], length, MatchBool};
ghost use Rattle.cpt_sheet.specs.Live.{IsDead, IsDeadToken, IsLive, IsLiveToken};
ghost use Rattle.cpt_sheet.specs.View.{token_at};
ghost use Rattle.cpt_layout.specs.Places.{needs_at};
ghost use Rattle.cpt_block.specs.Blocks.{list_in};

use crate::cells::Cells;
use cpt_sheet::is_shut;

impl Cells {
    /// Whether a list has no candidate left.
    fn is_empty(&self, x: u32, j: usize) -> bool
        requires token { x < length self.now.sheet.tokens }
        requires need { j < length (needs_at self.now.frame x) }
        ensures { MatchBool result (list_in self.now.sheet x j ≡ []) (list_in self.now.sheet x j ≢ []) }
    {
        self.keeps_order_at(x, j);
        if self.has_out(x, j) {
            return false;
        }
        !self.has_token(x, j)
    }

    /// Whether a token has no moment, or a list without a candidate.
    pub fn is_dead_token(&self, x: u32) -> bool
        requires { x < length self.now.sheet.tokens }
        ensures { MatchBool result (IsDeadToken (token_at self.now.sheet x)) (IsLiveToken (token_at self.now.sheet x)) }
    {
        if is_shut(self.span(x)) {
            return true;
        }
        for j in 0..self.needs(x).len() {
            if self.is_empty(x, j) {
                return true;
            }
        }
        false
    }

    /// Whether the sheet is dead.
    pub fn dead(&self) -> bool
        ensures { MatchBool result (IsDead self.now.sheet) (IsLive self.now.sheet) }
    {
        for x in 0..self.tokens() {
            if self.is_dead_token(x as u32) {
                return true;
            }
        }
        false
    }
}
