//! The children of a flaw.

ghost use Rattle.std.specs.Prelude.{◌≡◌, ◌<◌, ◌++◌, length, map, take, IfOk, OnOk, [], ◌∷◌};
ghost use Rattle.cpt_sheet.specs.View.{cands};
ghost use Rattle.cpt_calculus.specs.Rules.{only};
ghost use Rattle.cpt_calculus.specs.Flaws.{IsFlaw, children, choice};
ghost use Rattle.cpt_store.specs.Stores.{IsLent};

use cpt_sheet::{Cand, Decision, Flaw};
use cpt_store::{Ctx, Store};
use cpt_task::Memory;
use std::alloc::Global;

fn choice_of(x: u32, p: u32, c: Cand) -> Decision
    ensures { result ≡ choice x p c }
{
    match c {
        Cand::Tok(y) => Decision::Join {
            tok: x,
            pre: p,
            by: y,
        },
        Cand::Out(a) => Decision::Bring {
            tok: x,
            pre: p,
            act: a,
        },
    }
}

fn both(alloc: Global, first: Decision, second: Decision) -> Result<Vec<Decision>, Memory>
    ensures { IfOk result (λ v. v.items ≡ first ∷ second ∷ []) }
{
    let mut both = Vec::with_capacity(alloc, 2)?;
    both.push(first)?;
    both.push(second)?;
    Ok(both)
}

/// A decision for each candidate, in the order of the list.
fn choices(alloc: Global, store: &Store, x: u32, p: u32) -> Result<Vec<Decision>, Memory>
    requires there { x < length store.now.sheet.tokens }
    ensures { IfOk result (λ v. v.items ≡ map (choice x p) (cands store.now.sheet x p)) }
{
    let mut made = Vec::new(alloc);
    for place in 0..store.count(x, p) {
        made.push(choice_of(x, p, store.cand(x, p, place)))?;
    }
    Ok(made)
}

/// The children of a flaw of the sheet, in order: for a threat before the supplier and behind the consumer, for an open
/// need each candidate, for a clash either order.
pub fn children(
    alloc: Global,
    ctx: &Ctx,
    store: &Store,
    flaw: Flaw,
) -> Result<Vec<Decision>, Memory>
    requires lent { IsLent ctx.now.task.now ctx.now.tables.now store.now }
    requires flaw { IsFlaw ctx.now.task.now store.now.sheet flaw }
    ensures { IfOk result (λ v. v.items ≡ children store.now.sheet flaw) }
{
    match flaw {
        Flaw::Threat { tok, pre, foe } => {
            let second = store.supplier(tok, pre).unwrap_or(0);
            let ahead = Decision::Before { first: foe, second };
            let behind = Decision::Before {
                first: tok,
                second: foe,
            };
            both(alloc, ahead, behind)
        }
        Flaw::OpenNeed { tok, pre } => choices(alloc, store, tok, pre),
        Flaw::Clash { first, second } => {
            let ahead = Decision::Before { first, second };
            let behind = Decision::Before {
                first: second,
                second: first,
            };
            both(alloc, ahead, behind)
        }
    }
}
