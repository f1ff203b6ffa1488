//! The four changes of a sheet, made in place.

ghost use Rattle.std.specs.Prelude.{◌≡◌, ◌<◌, ◌≤◌, ◌==◌, length, slice_get, unwrap_or, insert, IsSomeAnd, OnOk, OnErr};
ghost use Rattle.cpt_sheet.specs.Edits.{changed, with_span, without, revised, moment_or, with_order, posted};
ghost use Rattle.cpt_sheet.specs.View.{span_of, hi, same, no_need, pair_lt};

use cpt_sheet::{Cand, Change, Need, Sheet, is_before, is_posted, is_same, span};
use cpt_task::{List, Memory, Span};

/// Raises the least moment of a token or of an outside action.
pub fn raise(sheet: &mut Sheet, at: Cand, to: Span)
    ensures { sheet.new ≡ changed sheet.old (Change.Raise at to) }
{
    match at {
        Cand::Tok(x) => {
            if (x as usize) < sheet.tokens.as_slice().len() {
                let token = sheet.tokens.get_mut(x as usize);
                token.span.lo = to;
            }
        }
        Cand::Out(a) => {
            if (a as usize) < sheet.outs.as_slice().len() {
                let span = sheet.outs.get_mut(a as usize);
                span.lo = to;
            }
        }
    }
}

fn lower_to(sheet: &mut Sheet, at: Cand, to: u64)
    ensures { sheet.new ≡ with_span sheet.old at (record (span_of sheet.old at) { hi = to }) }
{
    match at {
        Cand::Tok(x) => {
            if (x as usize) < sheet.tokens.as_slice().len() {
                let token = sheet.tokens.get_mut(x as usize);
                token.span.hi = to;
            }
        }
        Cand::Out(a) => {
            if (a as usize) < sheet.outs.as_slice().len() {
                let span = sheet.outs.get_mut(a as usize);
                span.hi = to;
            }
        }
    }
}

/// Whether the need at the place is for the atom.
pub fn is_for(needs: &[Need], i: usize, atom: u32) -> bool
    requires { i < length needs.now }
    ensures { result ≡ ((unwrap_or (slice_get needs.now i) no_need).atom == atom) }
{
    match needs.get(i) {
        Some(need) => need.atom == atom,
        None => false,
    }
}

fn is_here(list: &[Cand], i: usize, cand: Cand) -> bool
    requires { i < length list.now }
    ensures { IsSomeAnd (slice_get list.now i) (λ d. result ≡ same d cand) }
{
    match list.get(i) {
        Some(d) => is_same(*d, cand),
        None => false,
    }
}

fn discard(list: &mut List<Cand>, cand: Cand)
    ensures { list.new ≡ without cand list.old }
{
    for i in 0..list.as_slice().len() {
        if is_here(list.as_slice(), i, cand) {
            let _ = list.remove(i);
            return;
        }
    }
}

fn take_from(needs: &mut List<Need>, atom: u32, cand: Cand)
    ensures { needs.new ≡ revised atom (without cand) needs.old }
{
    for i in 0..needs.as_slice().len() {
        if is_for(needs.as_slice(), i, atom) {
            let need = needs.get_mut(i);
            discard(&mut need.cands, cand);
            return;
        }
    }
}

/// Takes a candidate out of the list of a token for an atom.
pub fn take(sheet: &mut Sheet, tok: u32, pre: u32, cand: Cand)
    ensures { sheet.new ≡ changed sheet.old (Change.Take tok pre cand) }
{
    if (tok as usize) < sheet.tokens.as_slice().len() {
        let token = sheet.tokens.get_mut(tok as usize);
        take_from(&mut token.lists, pre, cand);
    }
}

fn place_of(orders: &[(u32, u32)], first: u32, second: u32) -> usize
    ensures within { result ≤ length orders.now }
    ensures place { insert orders.now result (first, second) ≡ with_order first second orders.now }
{
    for (i, o) in orders.iter().enumerate() {
        if is_before(first, second, *o) {
            return i;
        }
    }
    orders.len()
}

/// Puts an order at its place, where it does not stand. After `Memory` the orders are unchanged.
pub fn post(orders: &mut List<(u32, u32)>, first: u32, second: u32) -> Result<(), Memory>
    ensures ok { OnOk result (orders.new ≡ posted first second orders.old) }
    ensures err { OnErr result (orders.new ≡ orders.old) }
{
    if is_posted(orders.as_slice(), first, second) {
        return Ok(());
    }
    let place = place_of(orders.as_slice(), first, second);
    orders.insert(place, (first, second))
}

/// Lowers the greatest moment of a token or of an outside action; `Never` leaves it.
pub fn lower(sheet: &mut Sheet, at: Cand, to: Span)
    ensures { sheet.new ≡ changed sheet.old (Change.Lower at to) }
{
    let moment = match to {
        Span::At(v) => v,
        Span::Never => span(sheet, at).hi,
    };
    lower_to(sheet, at, moment)
}

/// Makes a change. Only an order may take memory; after `Memory` the sheet is unchanged.
pub fn make(sheet: &mut Sheet, change: Change) -> Result<(), Memory>
    ensures ok { OnOk result (sheet.new ≡ changed sheet.old change) }
    ensures err { OnErr result (sheet.new ≡ sheet.old) }
{
    match change {
        Change::Raise { at, to } => raise(sheet, at, to),
        Change::Lower { at, to } => lower(sheet, at, to),
        Change::Take { tok, pre, cand } => take(sheet, tok, pre, cand),
        Change::Post { first, second } => return post(&mut sheet.orders, first, second),
    }
    Ok(())
}
