//! Candidate lists made anew, and copies.

ghost use Rattle.std.specs.Prelude.{◌≡◌, ◌<◌, ◌^◌, ◌++◌, ◌∷◌, [], List, map, length, IfOk, OnOk, OnErr};
ghost use Rattle.cpt_task.specs.Timeline.{is_in};
ghost use Rattle.std.specs.Prelude.{◌&&◌};
ghost use Rattle.cpt_tables.specs.Admissible.{nth_action};
ghost use Rattle.cpt_sheet.specs.Live.{is_open};
ghost use Rattle.cpt_sheet.specs.View.{span_of};
ghost use Rattle.cpt_sheet.specs.Roles.{adds_of};
ghost use Rattle.cpt_calculus.specs.Decisions.{token_adders, out_adders, adders, need_for};

use cpt_sheet::{Cand, Kind, Need, Sheet, Token, adds_of, is_open, kind, span};
use cpt_task::{List, Memory, Task};
use std::alloc::Global;

fn is_adder(task: &Task, kind: Kind, p: u32) -> bool
    ensures { result ≡ is_in p (adds_of task.now kind) }
{
    adds_of(task, kind).contains(&p)
}

fn token_adders_of(alloc: Global, task: &Task, sheet: &Sheet, p: u32) -> Result<Vec<Cand>, Memory>
    requires { length sheet.now.tokens < 2 ^ 32 }
    ensures { IfOk result (λ v. v.items ≡ token_adders task.now sheet.now p (length sheet.now.tokens)) }
{
    let mut list = Vec::new(alloc);
    for y in 0..sheet.tokens.as_slice().len() {
        let token = Cand::Tok(y as u32);
        if is_adder(task, kind(sheet, token), p) {
            list.push(token)?;
        }
    }
    Ok(list)
}

fn is_live_adder(task: &Task, sheet: &Sheet, o: u32, p: u32) -> bool
    ensures { result ≡ (is_open (span_of sheet.now (Cand.Out o)) && is_in p (nth_action task.now o).add) }
{
    is_open(span(sheet, Cand::Out(o))) && is_adder(task, Kind::Act(o), p)
}

fn out_adders_of(alloc: Global, task: &Task, sheet: &Sheet, p: u32) -> Result<Vec<Cand>, Memory>
    ensures { IfOk result (λ v. v.items ≡ out_adders task.now sheet.now p (length task.now.actions)) }
{
    let mut list = Vec::new(alloc);
    for o in 0..task.actions().len() {
        if is_live_adder(task, sheet, o as u32, p) {
            list.push(Cand::Out(o as u32))?;
        }
    }
    Ok(list)
}

fn need_of(alloc: Global, task: &Task, sheet: &Sheet, p: u32) -> Result<Need, Memory>
    requires { length sheet.now.tokens < 2 ^ 32 }
    ensures { IfOk result (λ n. n ≡ need_for task.now sheet.now p) }
{
    let mut cands = token_adders_of(alloc, task, sheet, p)?;
    let outs = out_adders_of(alloc, task, sheet, p)?;
    cands.extend_from_slice(outs.as_slice())?;
    Ok(Need {
        atom: p,
        cands: List::from_vec(cands),
    })
}

/// For each of the atoms all that add it.
pub fn needs_for(
    alloc: Global,
    task: &Task,
    sheet: &Sheet,
    atoms: &[u32],
) -> Result<List<Need>, Memory>
    requires { length sheet.now.tokens < 2 ^ 32 }
    ensures { IfOk result (λ l. l ≡ map (need_for task.now sheet.now) atoms.now) }
{
    let mut needs = Vec::new(alloc);
    for p in atoms {
        needs.push(need_of(alloc, task, sheet, *p)?)?;
    }
    Ok(List::from_vec(needs))
}
