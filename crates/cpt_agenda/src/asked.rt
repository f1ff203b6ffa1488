//! Subjects are asked for a step.

ghost use Rattle.std.specs.Prelude.{◌≡◌, ◌<◌, All, Contains, length, Option, false};
ghost use Rattle.cpt_sheet.specs.Live.{IsLive};
ghost use Rattle.cpt_sheet.specs.Roles.{needs_of, adds_of, deletes_of};
ghost use Rattle.cpt_steps.specs.Landing.{IsThere};
ghost use Rattle.cpt_index.specs.Lists.{Lists};
ghost use Rattle.cpt_store.specs.Stores.{IsLent};
ghost use Rattle.cpt_agenda.specs.Asked.{AreAsked, CanAsk, IsActionBelow, IsAround, IsAskedOne, IsLeft, IsListed, IsTaker, IsTakerOf, IsTokenBelow, IsUser, IsUserOf};
ghost use Rattle.cpt_agenda.specs.Users.{AreUsersOf};

use crate::agenda::Agenda;
use crate::users::Users;
use cpt_sheet::{Cand, Kind, Step, adds_of, deletes_of, needs_of};
use cpt_store::{Ctx, Rule, Store};

/// How an atom is used.
#[derive(Clone, Copy)]
pub(crate) enum Use {
    Needed,
    Deleted,
    Added,
}

/// Whether the subject has to be asked: after a step where the rule says that it wakes it, and after a decision always.
fn is_called<R: Rule>(ctx: &Ctx, store: &Store, rule: &R, cause: Option<Step>, c: Cand) -> bool
    requires lent { IsLent ctx.now.task.now ctx.now.tables.now store.now }
    requires live { IsLive store.now.sheet }
    requires there { IsThere ctx.now.task.now store.now.sheet c }
    ensures { result ≡ false → IsLeft R.covers ctx.now.task.now ctx.now.tables.now store.now.sheet cause c }
{
    match cause {
        Some(step) => rule.wakes(ctx, store, &step, c),
        None => true,
    }
}

/// Puts the subject on the agenda, where it has to be asked.
pub(crate) fn ask<R: Rule>(
    ctx: &Ctx,
    store: &Store,
    rule: &R,
    cause: Option<Step>,
    agenda: &mut Agenda,
    c: Cand,
)
    requires can { CanAsk ctx.now.task.now ctx.now.tables.now store.now agenda.old }
    requires there { IsThere ctx.now.task.now store.now.sheet c }
    ensures { IsAskedOne R.covers ctx.now.task.now ctx.now.tables.now store.now.sheet cause c agenda.old agenda.new }
{
    if agenda.waits(c) {
        return;
    }
    if is_called(ctx, store, rule, cause, c) {
        agenda.put(c);
    }
}

/// Asks those of a list.
pub(crate) fn ask_each<R: Rule>(
    ctx: &Ctx,
    store: &Store,
    rule: &R,
    cause: Option<Step>,
    agenda: &mut Agenda,
    list: &[Cand],
)
    requires can { CanAsk ctx.now.task.now ctx.now.tables.now store.now agenda.old }
    requires there { All (IsThere ctx.now.task.now store.now.sheet) list.now }
    ensures { AreAsked R.covers ctx.now.task.now ctx.now.tables.now store.now.sheet cause (Contains list.now) agenda.old agenda.new }
{
    for c in list {
        ask(ctx, store, rule, cause, agenda, *c);
    }
}

/// Asks the tokens of a list.
pub(crate) fn ask_tokens<R: Rule>(
    ctx: &Ctx,
    store: &Store,
    rule: &R,
    cause: Option<Step>,
    agenda: &mut Agenda,
    list: &[u32],
)
    requires can { CanAsk ctx.now.task.now ctx.now.tables.now store.now agenda.old }
    requires there { All (λ x. x < length store.now.sheet.tokens) list.now }
    ensures { AreAsked R.covers ctx.now.task.now ctx.now.tables.now store.now.sheet cause (IsListed list.now) agenda.old agenda.new }
{
    for x in list {
        ask(ctx, store, rule, cause, agenda, Cand::Tok(*x));
    }
}

/// Asks all tokens.
pub(crate) fn ask_all_tokens<R: Rule>(
    ctx: &Ctx,
    store: &Store,
    rule: &R,
    cause: Option<Step>,
    agenda: &mut Agenda,
)
    requires { CanAsk ctx.now.task.now ctx.now.tables.now store.now agenda.old }
    ensures { AreAsked R.covers ctx.now.task.now ctx.now.tables.now store.now.sheet cause (IsTokenBelow (length store.now.sheet.tokens)) agenda.old agenda.new }
{
    for x in 0..store.tokens() {
        ask(ctx, store, rule, cause, agenda, Cand::Tok(x));
    }
}

/// Asks all outside actions.
pub(crate) fn ask_all_actions<R: Rule>(
    ctx: &Ctx,
    store: &Store,
    rule: &R,
    cause: Option<Step>,
    agenda: &mut Agenda,
)
    requires { CanAsk ctx.now.task.now ctx.now.tables.now store.now agenda.old }
    ensures { AreAsked R.covers ctx.now.task.now ctx.now.tables.now store.now.sheet cause (IsActionBelow (length ctx.now.task.now.actions)) agenda.old agenda.new }
{
    for a in 0..ctx.task.actions().len() {
        ask(ctx, store, rule, cause, agenda, Cand::Out(a as u32));
    }
}

/// Who uses the atom so: of the tokens only those that add it.
fn users_of<'a>(ctx: &Ctx, store: &'a Store, users: &'a Users, how: Use, p: u32) -> &'a [Cand]
    requires lent { IsLent ctx.now.task.now ctx.now.tables.now store.now }
    requires users { AreUsersOf ctx.now.task.now users.now }
    ensures { Lists (IsUser ctx.now.task.now store.now.sheet how p) result.now }
{
    let _ = ctx;
    match how {
        Use::Needed => users.needing(p),
        Use::Deleted => users.deleting(p),
        Use::Added => store.offers(p),
    }
}

/// Asks who uses the atom so.
pub(crate) fn ask_users<R: Rule>(
    ctx: &Ctx,
    store: &Store,
    rule: &R,
    users: &Users,
    cause: Option<Step>,
    agenda: &mut Agenda,
    how: Use,
    p: u32,
)
    requires can { CanAsk ctx.now.task.now ctx.now.tables.now store.now agenda.old }
    requires users { AreUsersOf ctx.now.task.now users.now }
    ensures { AreAsked R.covers ctx.now.task.now ctx.now.tables.now store.now.sheet cause (IsUser ctx.now.task.now store.now.sheet how p) agenda.old agenda.new }
{
    let list = users_of(ctx, store, users, how, p);
    ask_each(ctx, store, rule, cause, agenda, list);
}

/// Asks who uses one of the atoms so.
pub(crate) fn ask_users_of<R: Rule>(
    ctx: &Ctx,
    store: &Store,
    rule: &R,
    users: &Users,
    cause: Option<Step>,
    agenda: &mut Agenda,
    how: Use,
    atoms: &[u32],
)
    requires can { CanAsk ctx.now.task.now ctx.now.tables.now store.now agenda.old }
    requires users { AreUsersOf ctx.now.task.now users.now }
    ensures { AreAsked R.covers ctx.now.task.now ctx.now.tables.now store.now.sheet cause (IsUserOf ctx.now.task.now store.now.sheet how atoms.now) agenda.old agenda.new }
{
    for p in atoms {
        ask_users(ctx, store, rule, users, cause, agenda, how, *p);
    }
}

/// Asks the tokens that need the atom.
fn ask_takers<R: Rule>(
    ctx: &Ctx,
    store: &Store,
    rule: &R,
    cause: Option<Step>,
    agenda: &mut Agenda,
    p: u32,
)
    requires { CanAsk ctx.now.task.now ctx.now.tables.now store.now agenda.old }
    ensures { AreAsked R.covers ctx.now.task.now ctx.now.tables.now store.now.sheet cause (IsTaker store.now.sheet p) agenda.old agenda.new }
{
    ask_tokens(ctx, store, rule, cause, agenda, store.consumers(p));
}

/// Asks the tokens that need one of the atoms.
pub(crate) fn ask_takers_of<R: Rule>(
    ctx: &Ctx,
    store: &Store,
    rule: &R,
    cause: Option<Step>,
    agenda: &mut Agenda,
    atoms: &[u32],
)
    requires { CanAsk ctx.now.task.now ctx.now.tables.now store.now agenda.old }
    ensures { AreAsked R.covers ctx.now.task.now ctx.now.tables.now store.now.sheet cause (IsTakerOf store.now.sheet atoms.now) agenda.old agenda.new }
{
    for p in atoms {
        ask_takers(ctx, store, rule, cause, agenda, *p);
    }
}

/// Asks the outside actions that delete what it needs or adds, and those that need or add what it deletes.
pub(crate) fn ask_around<R: Rule>(
    ctx: &Ctx,
    store: &Store,
    rule: &R,
    users: &Users,
    cause: Option<Step>,
    agenda: &mut Agenda,
    kind: Kind,
)
    requires can { CanAsk ctx.now.task.now ctx.now.tables.now store.now agenda.old }
    requires users { AreUsersOf ctx.now.task.now users.now }
    ensures { AreAsked R.covers ctx.now.task.now ctx.now.tables.now store.now.sheet cause (IsAround ctx.now.task.now store.now.sheet kind) agenda.old agenda.new }
{
    let needs = needs_of(ctx.task, kind);
    ask_users_of(ctx, store, rule, users, cause, agenda, Use::Deleted, needs);
    let adds = adds_of(ctx.task, kind);
    ask_users_of(ctx, store, rule, users, cause, agenda, Use::Deleted, adds);
    let deletes = deletes_of(ctx.task, kind);
    ask_users_of(ctx, store, rule, users, cause, agenda, Use::Needed, deletes);
    ask_users_of(ctx, store, rule, users, cause, agenda, Use::Added, deletes);
}
