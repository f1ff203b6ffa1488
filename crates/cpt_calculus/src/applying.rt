//! How a decision changes a sheet.

ghost use Rattle.std.specs.Prelude.{◌≡◌, ℕ, ◌<◌, ◌≤◌, ◌-◌, ◌^◌, ◌++◌, ◌∷◌, [], map, insert, length, slice_get, slice_set, unwrap_or, IfOk, OnOk, OnErr};
ghost use Rattle.cpt_sheet.specs.Formed.{IsFormed};
ghost use Rattle.cpt_sheet.specs.Edits.{revised, posted};
ghost use Rattle.cpt_sheet.specs.View.{no_token, has};
ghost use Rattle.cpt_calculus.specs.Decisions.{Fits, applied, brought, behind_tokens, beside, offer, offered, joined};
ghost use Rattle.cpt_calculus.specs.Places.{IsPlaceFor, is_outside};

use crate::build::needs_for;
use cpt_edits::{copy_cands, copy_orders, is_for, post};
use cpt_sheet::{Cand, Decision, Kind, Need, Sheet, Token, is_listed, needs_of, span};
use cpt_task::{List, Memory, Task};
use std::alloc::Global;

fn lone(alloc: Global, y: u32) -> Result<List<Cand>, Memory>
    ensures { IfOk result (λ l. l ≡ Cand.Tok y ∷ []) }
{
    let mut list = Vec::new(alloc);
    list.push(Cand::Tok(y))?;
    Ok(List::from_vec(list))
}

fn place_for(needs: &[Need], atom: u32) -> usize
    ensures { IsPlaceFor needs.now atom result }
{
    for i in 0..needs.len() {
        if is_for(needs, i, atom) {
            return i;
        }
    }
    needs.len()
}

fn put_list(needs: &mut List<Need>, atom: u32, cands: List<Cand>)
    ensures { needs.new ≡ revised atom (λ _. cands) needs.old }
{
    let place = place_for(needs.as_slice(), atom);
    if place < needs.as_slice().len() {
        let need = needs.get_mut(place);
        need.cands = cands;
    }
}

fn join(tokens: &mut List<Token>, tok: u32, pre: u32, cands: List<Cand>)
    ensures { tokens.new ≡ slice_set tokens.old tok (record (unwrap_or (slice_get tokens.old tok) no_token) { lists = revised pre (λ _. cands) (unwrap_or (slice_get tokens.old tok) no_token).lists }) }
{
    if (tok as usize) < tokens.as_slice().len() {
        let token = tokens.get_mut(tok as usize);
        put_list(&mut token.lists, pre, cands);
    }
}

fn first_out(cands: &[Cand]) -> usize
    ensures within { result ≤ length cands.now }
    ensures place { (n : ℕ) → insert cands.now result (Cand.Tok n) ≡ behind_tokens n cands.now }
{
    for (i, c) in cands.iter().enumerate() {
        if is_out(*c) {
            return i;
        }
    }
    cands.len()
}

fn is_out(c: Cand) -> bool
    ensures { result ≡ is_outside c }
{
    match c {
        Cand::Tok(_) => false,
        Cand::Out(_) => true,
    }
}

fn offered_cands(alloc: Global, cands: &[Cand], act: u32, n: u32) -> Result<Vec<Cand>, Memory>
    ensures { IfOk result (λ v. v.items ≡ beside act n cands.now) }
{
    let mut copy = copy_cands(alloc, cands)?;
    if is_listed(cands, Cand::Out(act)) {
        copy.insert(first_out(cands), Cand::Tok(n))?;
    }
    Ok(copy)
}

fn offered_need(alloc: Global, need: &Need, act: u32, n: u32) -> Result<Need, Memory>
    ensures { IfOk result (λ m. m ≡ offer act n need.now) }
{
    let cands = offered_cands(alloc, need.cands.as_slice(), act, n)?;
    Ok(Need {
        atom: need.atom,
        cands: List::from_vec(cands),
    })
}

fn offered_needs(alloc: Global, needs: &[Need], act: u32, n: u32) -> Result<Vec<Need>, Memory>
    ensures { IfOk result (λ v. v.items ≡ map (offer act n) needs.now) }
{
    let mut made = Vec::new(alloc);
    for need in needs {
        made.push(offered_need(alloc, need, act, n)?)?;
    }
    Ok(made)
}

fn offered_token(alloc: Global, token: &Token, act: u32, n: u32) -> Result<Token, Memory>
    ensures { IfOk result (λ z. z ≡ offered act n token.now) }
{
    let lists = offered_needs(alloc, token.lists.as_slice(), act, n)?;
    Ok(Token {
        kind: token.kind,
        span: token.span,
        lists: List::from_vec(lists),
    })
}

fn offered_tokens(alloc: Global, tokens: &[Token], act: u32, n: u32) -> Result<Vec<Token>, Memory>
    ensures { IfOk result (λ v. v.items ≡ map (offered act n) tokens.now) }
{
    let mut made = Vec::new(alloc);
    for token in tokens {
        made.push(offered_token(alloc, token, act, n)?)?;
    }
    Ok(made)
}

fn brought_token(alloc: Global, task: &Task, sheet: &Sheet, act: u32) -> Result<Token, Memory>
    requires { length sheet.now.tokens < 2 ^ 32 }
    ensures { IfOk result (λ z. z ≡ brought task.now sheet.now act) }
{
    let lists = needs_for(alloc, task, sheet, needs_of(task, Kind::Act(act)))?;
    Ok(Token {
        kind: Kind::Act(act),
        span: span(sheet, Cand::Out(act)),
        lists,
    })
}

fn orders_with(
    alloc: Global,
    orders: &[(u32, u32)],
    n: u32,
    x: u32,
) -> Result<List<(u32, u32)>, Memory>
    ensures { IfOk result (λ l. l ≡ posted n x (posted n 1 (posted 0 n orders.now))) }
{
    let mut made = copy_orders(alloc, orders)?;
    post(&mut made, 0, n)?;
    post(&mut made, n, 1)?;
    post(&mut made, n, x)?;
    Ok(made)
}

fn tokens_with(
    alloc: Global,
    task: &Task,
    sheet: &Sheet,
    x: u32,
    p: u32,
    act: u32,
) -> Result<List<Token>, Memory>
    requires { length sheet.now.tokens < 2 ^ 32 - 1 }
    ensures { IfOk result (λ l. l ≡ (applied task.now sheet.now (Decision.Bring x p act)).tokens) }
{
    let n = sheet.tokens.as_slice().len() as u32;
    let brought = brought_token(alloc, task, sheet, act)?;
    let only = lone(alloc, n)?;
    let offered = offered_tokens(alloc, sheet.tokens.as_slice(), act, n)?;
    let mut tokens = List::from_vec(offered);
    join(&mut tokens, x, p, only);
    tokens.insert(n as usize, brought)?;
    Ok(tokens)
}

fn bring(task: &Task, sheet: &mut Sheet, x: u32, p: u32, act: u32) -> Result<(), Memory>
    requires { length sheet.old.tokens < 2 ^ 32 - 1 }
    ensures ok { OnOk result (sheet.new ≡ applied task.now sheet.old (Decision.Bring x p act)) }
    ensures err { OnErr result (sheet.new ≡ sheet.old) }
{
    let alloc = sheet.tokens.allocator();
    let n = sheet.tokens.as_slice().len() as u32;
    let tokens = tokens_with(alloc, task, sheet, x, p, act)?;
    let orders = orders_with(alloc, sheet.orders.as_slice(), n, x)?;
    sheet.tokens = tokens;
    sheet.orders = orders;
    Ok(())
}

fn decide(task: &Task, sheet: &mut Sheet, decision: &Decision) -> Result<(), Memory>
    requires { length sheet.old.tokens < 2 ^ 32 - 1 }
    ensures ok { OnOk result (sheet.new ≡ applied task.now sheet.old decision.now) }
    ensures err { OnErr result (sheet.new ≡ sheet.old) }
{
    match *decision {
        Decision::Join { tok, pre, by } => {
            let list = lone(sheet.tokens.allocator(), by)?;
            join(&mut sheet.tokens, tok, pre, list);
            Ok(())
        }
        Decision::Bring { tok, pre, act } => bring(task, sheet, tok, pre, act),
        Decision::Before { first, second } => post(&mut sheet.orders, first, second),
    }
}

/// Makes the change of a decision. After `Memory` the sheet is unchanged.
pub fn apply(task: &Task, sheet: &mut Sheet, decision: &Decision) -> Result<(), Memory>
    requires fits { Fits sheet.old decision.now }
    requires few { length sheet.old.tokens < 2 ^ 32 - 1 }
    ensures ok { OnOk result (sheet.new ≡ applied task.now sheet.old decision.now) }
    ensures formed { OnOk result (IsFormed task.now sheet.old → IsFormed task.now sheet.new) }
    ensures err { OnErr result (sheet.new ≡ sheet.old) }
{
    decide(task, sheet, decision)
}
