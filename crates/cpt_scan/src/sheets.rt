//! Whether a store has a sheet, by its readers alone.

ghost use Rattle.std.specs.Prelude.{◌≡◌, ◌<◌, length};
ghost use Rattle.cpt_store.specs.Stores.{IsLent};

use cpt_sheet::{Cand, Sheet, kind, list, span, stands};
use cpt_store::{Ctx, Store};

fn has_list(store: &Store, sheet: &Sheet, tok: u32, pre: u32) -> bool
    requires { tok < length store.now.sheet.tokens }
{
    let cands = list(sheet, tok, pre);
    let count = store.count(tok, pre);
    for place in 0..count {
        let cand = store.cand(tok, pre, place);
        if cands.get(place as usize).copied() != Some(cand) {
            return false;
        }
    }
    count as usize == cands.len()
}

fn has_token(ctx: &Ctx, store: &Store, sheet: &Sheet, tok: u32) -> bool
    requires lent { IsLent ctx.now.task.now ctx.now.tables.now store.now }
    requires there { tok < length store.now.sheet.tokens }
{
    let c = Cand::Tok(tok);
    if store.kind(tok) != kind(sheet, c) || store.span(tok) != span(sheet, c) {
        return false;
    }
    let needs = store.needs(ctx, tok);
    needs.iter().all(|pre| has_list(store, sheet, tok, *pre))
}

fn has_orders(store: &Store, sheet: &Sheet) -> bool {
    for first in 0..store.tokens() {
        for second in 0..store.tokens() {
            if store.before(first, second) != stands(sheet, first, second) {
                return false;
            }
        }
    }
    true
}

fn has_outs(ctx: &Ctx, store: &Store, sheet: &Sheet) -> bool {
    for act in 0..ctx.task.actions().len() as u32 {
        if store.span_at(Cand::Out(act)) != span(sheet, Cand::Out(act)) {
            return false;
        }
    }
    true
}

/// Whether the store has the bound, the tokens, the outside actions and the orders of the sheet.
pub fn is_sheet(ctx: &Ctx, store: &Store, sheet: &Sheet) -> bool
    requires { IsLent ctx.now.task.now ctx.now.tables.now store.now }
{
    if store.bound() != sheet.bound || store.tokens() as usize != sheet.tokens.as_slice().len() {
        return false;
    }
    for tok in 0..store.tokens() {
        if !has_token(ctx, store, sheet, tok) {
            return false;
        }
    }
    has_outs(ctx, store, sheet) && has_orders(store, sheet)
}
