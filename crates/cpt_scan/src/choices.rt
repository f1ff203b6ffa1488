//! Random decisions and steps.

ghost use Rattle.std.specs.Prelude.{◌<◌, length, IfSome};
ghost use Rattle.cpt_store.specs.Stores.{CanNarrow, IsLent};

use crate::moves::step_at;
use crate::tasks::ALL_RULES;
use cpt_sheet::{Cand, Decision, Step};
use cpt_store::{Ctx, Store};
use rand_core::utils::NextWord;
use rand_pcg::Pcg32;

/// A candidate of the list; None where it is empty.
fn some_in(store: &Store, tok: u32, pre: u32, word: u32) -> Option<Cand>
    requires { tok < length store.now.sheet.tokens }
{
    let count = store.count(tok, pre);
    if count == 0 {
        return None;
    }
    Some(store.cand(tok, pre, word % count))
}

/// A random candidate for a random need of a random token; None where there is none.
fn some_candidate(ctx: &Ctx, store: &Store, random: &mut Pcg32) -> Option<Decision>
    requires { IsLent ctx.now.task.now ctx.now.tables.now store.now }
{
    let count = store.tokens();
    if count == 0 {
        return None;
    }
    let tok = random.next_word() % count;
    let needs = store.needs(ctx, tok);
    let pre = *needs.get(random.next_word() as usize % needs.len().max(1))?;
    Some(match some_in(store, tok, pre, random.next_word())? {
        Cand::Tok(by) => Decision::Join { tok, pre, by },
        Cand::Out(act) => Decision::Bring { tok, pre, act },
    })
}

/// A random candidate, or a random order. It may not fit.
pub fn some_decision(ctx: &Ctx, store: &Store, random: &mut Pcg32) -> Decision
    requires { IsLent ctx.now.task.now ctx.now.tables.now store.now }
{
    let count = store.tokens().max(1);
    let order = Decision::Before {
        first: random.next_word() % count,
        second: random.next_word() % count,
    };
    if random.next_word() % 4 == 3 {
        return order;
    }
    some_candidate(ctx, store, random).unwrap_or(order)
}

/// How many tokens and outside actions there are.
pub fn subject_count(ctx: &Ctx, store: &Store) -> u32 {
    let actions = ctx.task.actions().len() as u32;
    store.tokens().saturating_add(actions)
}

/// The subject of this number: the tokens come first, then the outside actions.
pub fn subject_at(store: &Store, number: u32) -> Cand {
    let tokens = store.tokens();
    if number < tokens {
        return Cand::Tok(number);
    }
    Cand::Out(number - tokens)
}

/// The step that is proposed at the first subject from a random one on.
pub fn some_step(ctx: &Ctx, store: &Store, random: &mut Pcg32) -> Option<Step>
    requires { IsLent ctx.now.task.now ctx.now.tables.now store.now }
    ensures { IfSome result (CanNarrow store.now) }
{
    let count = subject_count(ctx, store).max(1);
    let from = random.next_word() % count;
    for place in 0..count {
        let c = subject_at(store, place.wrapping_add(from) % count);
        if let Some(step) = step_at(ctx, store, &ALL_RULES, c) {
            return Some(step);
        }
    }
    None
}
