//! Copies of sheets.

ghost use Rattle.std.specs.Prelude.{◌≡◌, IfOk};

use cpt_sheet::{Cand, Need, Sheet, Token};
use cpt_task::{List, Memory};
use std::alloc::Global;

/// The same list of candidates.
pub fn copy_cands(alloc: Global, cands: &[Cand]) -> Result<Vec<Cand>, Memory>
    ensures { IfOk result (λ v. v.items ≡ cands.now) }
{
    Ok(Vec::from_slice(alloc, cands)?)
}

fn copy_need(alloc: Global, need: &Need) -> Result<Need, Memory>
    ensures { IfOk result (λ n. n ≡ need.now) }
{
    let cands = copy_cands(alloc, need.cands.as_slice())?;
    Ok(Need {
        atom: need.atom,
        cands: List::from_vec(cands),
    })
}

fn copy_needs(alloc: Global, needs: &[Need]) -> Result<Vec<Need>, Memory>
    ensures { IfOk result (λ v. v.items ≡ needs.now) }
{
    let mut copies = Vec::new(alloc);
    for need in needs {
        copies.push(copy_need(alloc, need)?)?;
    }
    Ok(copies)
}

fn copy_token(alloc: Global, token: &Token) -> Result<Token, Memory>
    ensures { IfOk result (λ z. z ≡ token.now) }
{
    let lists = copy_needs(alloc, token.lists.as_slice())?;
    Ok(Token {
        kind: token.kind,
        span: token.span,
        lists: List::from_vec(lists),
    })
}

fn copy_tokens(alloc: Global, tokens: &[Token]) -> Result<Vec<Token>, Memory>
    ensures { IfOk result (λ v. v.items ≡ tokens.now) }
{
    let mut copies = Vec::new(alloc);
    for token in tokens {
        copies.push(copy_token(alloc, token)?)?;
    }
    Ok(copies)
}

/// The same orders.
pub fn copy_orders(alloc: Global, orders: &[(u32, u32)]) -> Result<List<(u32, u32)>, Memory>
    ensures { IfOk result (λ l. l ≡ orders.now) }
{
    let copies = Vec::from_slice(alloc, orders)?;
    Ok(List::from_vec(copies))
}

/// The same sheet.
pub fn copy_sheet(alloc: Global, sheet: &Sheet) -> Result<Sheet, Memory>
    ensures { IfOk result (λ s. s ≡ sheet.now) }
{
    let tokens = copy_tokens(alloc, sheet.tokens.as_slice())?;
    let outs = Vec::from_slice(alloc, sheet.outs.as_slice())?;
    let orders = copy_orders(alloc, sheet.orders.as_slice())?;
    Ok(Sheet {
        bound: sheet.bound,
        tokens: List::from_vec(tokens),
        outs: List::from_vec(outs),
        orders,
    })
}
