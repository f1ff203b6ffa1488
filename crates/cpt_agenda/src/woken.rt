//! Whom to ask after a step, and after a decision.

ghost use Rattle.std.specs.Prelude.{◌≡◌, ◌<◌, ◌≤◌, length, Option, Some, None};
ghost use Rattle.cpt_task.specs.declared.span.Span.TheVariants.{Never};
ghost use Rattle.cpt_sheet.specs.declared.data.Cand.TheVariants.{Tok, Out};
ghost use Rattle.cpt_sheet.specs.declared.data.Change.TheVariants.{Raise, Lower};
ghost use Rattle.cpt_sheet.specs.declared.data.Sheet.{Sheet};
ghost use Rattle.cpt_calculus.specs.Rules.{change_of};
ghost use Rattle.cpt_steps.specs.Landing.{IsThere};
ghost use Rattle.cpt_agenda.specs.Asked.{AreAsked, CanAsk, IsWoken, NamesTokens, StirredBy, StirredByBring, StirredByJoin, StirredByOrder, WokenBy, WokenByTake, WokenFrom, spot_of};
ghost use Rattle.cpt_agenda.specs.Users.{AreUsersOf};

use crate::agenda::Agenda;
use crate::asked::{
    Use, ask, ask_all_actions, ask_all_tokens, ask_around, ask_takers_of, ask_tokens, ask_users,
    ask_users_of,
};
use crate::users::Users;
use cpt_sheet::{Cand, Decision, Kind, Step, adds_of, is_shut};
use cpt_store::{Ctx, Rule, Store};

/// What of a sheet a step changes.
#[derive(Clone, Copy)]
pub(crate) enum Spot {
    Raised(Cand),
    Lowered(Cand),
    Taken(u32, u32),
    Posted,
}

fn touched(step: Step) -> Spot
    ensures { (s : Sheet) → spot_of (change_of s step) ≡ result }
{
    match step {
        Step::R1 { second, .. } => Spot::Raised(Cand::Tok(second)),
        Step::R2 { first, .. } => Spot::Lowered(Cand::Tok(first)),
        Step::R3 { .. } => Spot::Posted,
        Step::R4 { tok, .. } => Spot::Raised(Cand::Tok(tok)),
        Step::R5 { tok, pre, .. } => Spot::Taken(tok, pre),
        Step::R6 { .. } => Spot::Posted,
        Step::R7 { tok, pre, .. } => Spot::Taken(tok, pre),
        Step::R8 { tok, pre, .. } => Spot::Taken(tok, pre),
        Step::R9After { .. } => Spot::Posted,
        Step::R9Ahead { .. } => Spot::Posted,
        Step::R10 { act, .. } => Spot::Raised(Cand::Out(act)),
        Step::R11After { act, .. } => Spot::Raised(Cand::Out(act)),
        Step::R11Ahead { act, .. } => Spot::Lowered(Cand::Out(act)),
        Step::R12After { act, .. } => Spot::Raised(Cand::Out(act)),
        Step::R12Ahead { act, .. } => Spot::Lowered(Cand::Out(act)),
        Step::R13 { tok, pre, .. } => Spot::Taken(tok, pre),
    }
}

fn wake_by_raised_token<R: Rule>(
    ctx: &Ctx,
    store: &Store,
    rule: &R,
    users: &Users,
    cause: Option<Step>,
    agenda: &mut Agenda,
    z: u32,
)
    requires can { CanAsk ctx.now.task.now ctx.now.tables.now store.now agenda.old }
    requires users { AreUsersOf ctx.now.task.now users.now }
    ensures { AreAsked R.covers ctx.now.task.now ctx.now.tables.now store.now.sheet cause (WokenBy ctx.now.task.now store.now.sheet (Raise (Tok z) Never)) agenda.old agenda.new }
{
    ask_all_tokens(ctx, store, rule, cause, agenda);
    let kind = store.kind_at(Cand::Tok(z));
    ask_around(ctx, store, rule, users, cause, agenda, kind);
    let adds = adds_of(ctx.task, kind);
    ask_users_of(ctx, store, rule, users, cause, agenda, Use::Needed, adds);
}

fn wake_by_lowered_token<R: Rule>(
    ctx: &Ctx,
    store: &Store,
    rule: &R,
    users: &Users,
    cause: Option<Step>,
    agenda: &mut Agenda,
    z: u32,
)
    requires can { CanAsk ctx.now.task.now ctx.now.tables.now store.now agenda.old }
    requires users { AreUsersOf ctx.now.task.now users.now }
    ensures { AreAsked R.covers ctx.now.task.now ctx.now.tables.now store.now.sheet cause (WokenBy ctx.now.task.now store.now.sheet (Lower (Tok z) Never)) agenda.old agenda.new }
{
    ask_all_tokens(ctx, store, rule, cause, agenda);
    let kind = store.kind_at(Cand::Tok(z));
    ask_around(ctx, store, rule, users, cause, agenda, kind);
}

fn wake_by_raised_action<R: Rule>(
    ctx: &Ctx,
    store: &Store,
    rule: &R,
    users: &Users,
    cause: Option<Step>,
    agenda: &mut Agenda,
    o: u32,
)
    requires can { CanAsk ctx.now.task.now ctx.now.tables.now store.now agenda.old }
    requires users { AreUsersOf ctx.now.task.now users.now }
    ensures { AreAsked R.covers ctx.now.task.now ctx.now.tables.now store.now.sheet cause (WokenBy ctx.now.task.now store.now.sheet (Raise (Out o) Never)) agenda.old agenda.new }
{
    let adds = adds_of(ctx.task, Kind::Act(o));
    ask_takers_of(ctx, store, rule, cause, agenda, adds);
    ask_users_of(ctx, store, rule, users, cause, agenda, Use::Needed, adds);
}

fn wake_by_lowered_action<R: Rule>(
    ctx: &Ctx,
    store: &Store,
    rule: &R,
    users: &Users,
    cause: Option<Step>,
    agenda: &mut Agenda,
    o: u32,
)
    requires can { CanAsk ctx.now.task.now ctx.now.tables.now store.now agenda.old }
    requires users { AreUsersOf ctx.now.task.now users.now }
    ensures { AreAsked R.covers ctx.now.task.now ctx.now.tables.now store.now.sheet cause (WokenBy ctx.now.task.now store.now.sheet (Lower (Out o) Never)) agenda.old agenda.new }
{
    if is_shut(store.span_at(Cand::Out(o))) {
        wake_by_raised_action(ctx, store, rule, users, cause, agenda, o);
        return;
    }
    let adds = adds_of(ctx.task, Kind::Act(o));
    ask_takers_of(ctx, store, rule, cause, agenda, adds);
}

/// Only where one token is left of the list.
fn wake_by_taken<R: Rule>(
    ctx: &Ctx,
    store: &Store,
    rule: &R,
    users: &Users,
    cause: Option<Step>,
    agenda: &mut Agenda,
    x: u32,
    p: u32,
)
    requires can { CanAsk ctx.now.task.now ctx.now.tables.now store.now agenda.old }
    requires users { AreUsersOf ctx.now.task.now users.now }
    ensures { AreAsked R.covers ctx.now.task.now ctx.now.tables.now store.now.sheet cause (WokenByTake ctx.now.task.now store.now.sheet x p) agenda.old agenda.new }
{
    let Some(y) = store.supplier(x, p) else {
        return;
    };
    ask(ctx, store, rule, cause, agenda, Cand::Tok(y));
    ask_tokens(ctx, store, rule, cause, agenda, store.deleters(p));
    ask_users(ctx, store, rule, users, cause, agenda, Use::Deleted, p);
}

fn wake_at<R: Rule>(
    ctx: &Ctx,
    store: &Store,
    rule: &R,
    users: &Users,
    cause: Option<Step>,
    agenda: &mut Agenda,
    spot: Spot,
)
    requires can { CanAsk ctx.now.task.now ctx.now.tables.now store.now agenda.old }
    requires users { AreUsersOf ctx.now.task.now users.now }
    ensures { AreAsked R.covers ctx.now.task.now ctx.now.tables.now store.now.sheet cause (WokenFrom ctx.now.task.now store.now.sheet spot) agenda.old agenda.new }
{
    match spot {
        Spot::Raised(Cand::Tok(z)) => {
            wake_by_raised_token(ctx, store, rule, users, cause, agenda, z)
        }
        Spot::Raised(Cand::Out(o)) => {
            wake_by_raised_action(ctx, store, rule, users, cause, agenda, o)
        }
        Spot::Lowered(Cand::Tok(z)) => {
            wake_by_lowered_token(ctx, store, rule, users, cause, agenda, z)
        }
        Spot::Lowered(Cand::Out(o)) => {
            wake_by_lowered_action(ctx, store, rule, users, cause, agenda, o)
        }
        Spot::Taken(x, p) => wake_by_taken(ctx, store, rule, users, cause, agenda, x, p),
        Spot::Posted => ask_all_tokens(ctx, store, rule, cause, agenda),
    }
}

/// Puts on the agenda whom the rule asks for after a step, among those that its change can wake. The store is the one
/// after the step.
pub fn wake<R: Rule>(
    ctx: &Ctx,
    store: &Store,
    rule: &R,
    users: &Users,
    step: &Step,
    agenda: &mut Agenda,
)
    requires can { CanAsk ctx.now.task.now ctx.now.tables.now store.now agenda.old }
    requires users { AreUsersOf ctx.now.task.now users.now }
    ensures { IsWoken R.covers ctx.now.task.now ctx.now.tables.now store.now.sheet step.now agenda.old agenda.new }
{
    wake_at(ctx, store, rule, users, Some(*step), agenda, touched(*step));
}

fn stir_by_join<R: Rule>(
    ctx: &Ctx,
    store: &Store,
    rule: &R,
    users: &Users,
    agenda: &mut Agenda,
    x: u32,
    p: u32,
)
    requires can { CanAsk ctx.now.task.now ctx.now.tables.now store.now agenda.old }
    requires users { AreUsersOf ctx.now.task.now users.now }
    requires there { x < length store.now.sheet.tokens }
    ensures { AreAsked R.covers ctx.now.task.now ctx.now.tables.now store.now.sheet None (StirredByJoin ctx.now.task.now store.now.sheet x p) agenda.old agenda.new }
{
    ask(ctx, store, rule, None, agenda, Cand::Tok(x));
    wake_by_taken(ctx, store, rule, users, None, agenda, x, p);
}

fn stir_by_order<R: Rule>(ctx: &Ctx, store: &Store, rule: &R, agenda: &mut Agenda, x: u32, y: u32)
    requires can { CanAsk ctx.now.task.now ctx.now.tables.now store.now agenda.old }
    requires first { x < length store.now.sheet.tokens }
    requires second { y < length store.now.sheet.tokens }
    ensures { AreAsked R.covers ctx.now.task.now ctx.now.tables.now store.now.sheet None (StirredByOrder ctx.now.task.now store.now.sheet x y) agenda.old agenda.new }
{
    ask(ctx, store, rule, None, agenda, Cand::Tok(x));
    ask(ctx, store, rule, None, agenda, Cand::Tok(y));
    let adds = adds_of(ctx.task, store.kind_at(Cand::Tok(x)));
    ask_takers_of(ctx, store, rule, None, agenda, adds);
}

fn stir_by_bring<R: Rule>(
    ctx: &Ctx,
    store: &Store,
    rule: &R,
    users: &Users,
    agenda: &mut Agenda,
    p: u32,
    a: u32,
)
    requires can { CanAsk ctx.now.task.now ctx.now.tables.now store.now agenda.old }
    requires users { AreUsersOf ctx.now.task.now users.now }
    ensures { AreAsked R.covers ctx.now.task.now ctx.now.tables.now store.now.sheet None (StirredByBring ctx.now.task.now store.now.sheet p a) agenda.old agenda.new }
{
    ask_all_tokens(ctx, store, rule, None, agenda);
    ask_around(ctx, store, rule, users, None, agenda, Kind::Act(a));
    ask_users(ctx, store, rule, users, None, agenda, Use::Deleted, p);
}

/// Puts on the agenda whom a decision can give a legal step, where the sheet before it was closed. The store is the one
/// after the decision.
pub fn stir<R: Rule>(
    ctx: &Ctx,
    store: &Store,
    rule: &R,
    users: &Users,
    decision: &Decision,
    agenda: &mut Agenda,
)
    requires can { CanAsk ctx.now.task.now ctx.now.tables.now store.now agenda.old }
    requires users { AreUsersOf ctx.now.task.now users.now }
    requires named { NamesTokens store.now.sheet decision.now }
    ensures { AreAsked R.covers ctx.now.task.now ctx.now.tables.now store.now.sheet None (StirredBy ctx.now.task.now store.now.sheet decision.now) agenda.old agenda.new }
{
    match *decision {
        Decision::Join { tok, pre, .. } => {
            stir_by_join(ctx, store, rule, users, agenda, tok, pre)
        }
        Decision::Before { first, second } => {
            stir_by_order(ctx, store, rule, agenda, first, second)
        }
        Decision::Bring { pre, act, .. } => {
            stir_by_bring(ctx, store, rule, users, agenda, pre, act)
        }
    }
}

/// Puts all that are there on the agenda.
pub fn fill<R: Rule>(ctx: &Ctx, store: &Store, rule: &R, agenda: &mut Agenda)
    requires { CanAsk ctx.now.task.now ctx.now.tables.now store.now agenda.old }
    ensures { AreAsked R.covers ctx.now.task.now ctx.now.tables.now store.now.sheet None (IsThere ctx.now.task.now store.now.sheet) agenda.old agenda.new }
{
    ask_all_tokens(ctx, store, rule, None, agenda);
    ask_all_actions(ctx, store, rule, None, agenda);
}
