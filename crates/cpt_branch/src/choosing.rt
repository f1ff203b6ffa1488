//! The first flaw in the order of choice.

ghost use Rattle.std.specs.Prelude.{◌≡◌, ◌<◌, ◌⊎◌, length, MatchBool};
ghost use Rattle.cpt_sheet.specs.declared.data.Cand.TheVariants.{Tok};
ghost use Rattle.cpt_sheet.specs.declared.data.Flaw.TheVariants.{OpenNeed};
ghost use Rattle.cpt_sheet.specs.Roles.{Deletes};
ghost use Rattle.cpt_sheet.specs.View.{cands, kind_of};
ghost use Rattle.cpt_calculus.specs.Flaws.{IsChosenBefore, IsPairBefore};
ghost use Rattle.cpt_calculus.specs.Rules.{IsToken};
ghost use Rattle.cpt_store.specs.Stores.{IsLent};
ghost use Rattle.cpt_branch.specs.Choosing.{AreBelow, IsChoice, IsClashOf, IsClashWith, IsEarlier, IsFirstOf, IsOfList, IsOfToken, IsThreatBy};

use cpt_sheet::{Cand, Flaw, Kind};
use cpt_store::{Ctx, Store};

fn is_pair_before(x: u32, p: u32, y: u32, q: u32) -> bool
    ensures { MatchBool result (IsPairBefore x p y q) (IsPairBefore x p y q → ⊥) }
{
    x < y || (x == y && p < q)
}

/// How many candidates a list has: none where it is not there.
fn options(store: &Store, tok: u32, pre: u32) -> u32
    ensures { result ≡ length (cands store.now.sheet tok pre) }
{
    if tok < store.tokens() {
        store.count(tok, pre)
    } else {
        0
    }
}

fn is_need_before(store: &Store, x: u32, p: u32, y: u32, q: u32) -> bool
    ensures { MatchBool result (IsChosenBefore store.now.sheet (OpenNeed x p) (OpenNeed y q)) (IsChosenBefore store.now.sheet (OpenNeed x p) (OpenNeed y q) → ⊥) }
{
    let here = options(store, x, p);
    let there = options(store, y, q);
    here < there || (here == there && is_pair_before(x, p, y, q))
}

fn is_threat_before(x: u32, p: u32, d: u32, y: u32, q: u32, e: u32) -> bool
    ensures { MatchBool result (IsPairBefore x p y q ⊎ ((x ≡ y) × (p ≡ q) × (d < e))) (IsPairBefore x p y q ⊎ ((x ≡ y) × (p ≡ q) × (d < e)) → ⊥) }
{
    is_pair_before(x, p, y, q) || (x == y && p == q && d < e)
}

/// Whether the one flaw is chosen before the other.
fn is_chosen_before(store: &Store, f: Flaw, g: Flaw) -> bool
    ensures { MatchBool result (IsChosenBefore store.now.sheet f g) (IsChosenBefore store.now.sheet f g → ⊥) }
{
    match (f, g) {
        (
            Flaw::Threat { tok, pre, foe },
            Flaw::Threat {
                tok: y,
                pre: q,
                foe: e,
            },
        ) => is_threat_before(tok, pre, foe, y, q, e),
        (Flaw::Threat { .. }, _) => true,
        (Flaw::OpenNeed { .. }, Flaw::Threat { .. }) => false,
        (Flaw::OpenNeed { tok, pre }, Flaw::OpenNeed { tok: y, pre: q }) => {
            is_need_before(store, tok, pre, y, q)
        }
        (Flaw::OpenNeed { .. }, Flaw::Clash { .. }) => true,
        (
            Flaw::Clash { first, second },
            Flaw::Clash {
                first: y,
                second: z,
            },
        ) => is_pair_before(first, second, y, z),
        (Flaw::Clash { .. }, _) => false,
    }
}

/// The one that is chosen before the other, or else the former.
fn earlier(store: &Store, former: Option<Flaw>, latter: Option<Flaw>) -> Option<Flaw>
    ensures { IsEarlier store.now.sheet former latter result }
{
    match (former, latter) {
        (None, latter) => latter,
        (former, None) => former,
        (Some(f), Some(g)) => {
            if is_chosen_before(store, g, f) {
                Some(g)
            } else {
                Some(f)
            }
        }
    }
}

/// The threat of `d` to what `y` alone supplies to `x`.
fn threat_by(store: &Store, x: u32, p: u32, y: u32, d: u32) -> Option<Flaw>
    requires supplied { IsToken (cands store.now.sheet x p) y }
    requires deletes { Deletes store.now.task (kind_of store.now.sheet (Tok d)) p }
    ensures { IsFirstOf store.now.sheet (IsThreatBy store.now.task store.now.sheet x p d) result }
{
    if d != x && d != y && !store.before(d, y) && !store.before(x, d) {
        Some(Flaw::Threat {
            tok: x,
            pre: p,
            foe: d,
        })
    } else {
        None
    }
}

/// The first threat to what `y` alone supplies to `x`.
fn first_threat(store: &Store, x: u32, p: u32, y: u32) -> Option<Flaw>
    requires supplied { IsToken (cands store.now.sheet x p) y }
    ensures { IsFirstOf store.now.sheet (IsOfList store.now.task store.now.sheet x p) result }
{
    let mut first = None;
    let foes = store.deleters(p);
    for foe in foes {
        let found = threat_by(store, x, p, y, *foe);
        first = earlier(store, first, found);
    }
    first
}

/// The first flaw of a list.
fn of_list(store: &Store, x: u32, p: u32) -> Option<Flaw>
    ensures { IsFirstOf store.now.sheet (IsOfList store.now.task store.now.sheet x p) result }
{
    match store.supplier(x, p) {
        Some(y) => first_threat(store, x, p, y),
        None => {
            if options(store, x, p) == 0 {
                None
            } else {
                Some(Flaw::OpenNeed { tok: x, pre: p })
            }
        }
    }
}

/// The first flaw of a token's lists.
fn of_token(ctx: &Ctx, store: &Store, x: u32) -> Option<Flaw>
    requires lent { IsLent ctx.now.task.now ctx.now.tables.now store.now }
    requires there { x < length store.now.sheet.tokens }
    ensures { IsFirstOf store.now.sheet (IsOfToken store.now.task store.now.sheet x) result }
{
    let mut first = None;
    let needs = store.needs(ctx, x);
    for need in needs {
        let found = of_list(store, x, *need);
        first = earlier(store, first, found);
    }
    first
}

/// The first flaw of all lists.
fn of_lists(ctx: &Ctx, store: &Store) -> Option<Flaw>
    requires lent { IsLent ctx.now.task.now ctx.now.tables.now store.now }
    ensures { IsFirstOf store.now.sheet (AreBelow (IsOfToken store.now.task store.now.sheet) (length store.now.sheet.tokens)) result }
{
    let mut first = None;
    for x in 0..store.tokens() {
        let found = of_token(ctx, store, x);
        first = earlier(store, first, found);
    }
    first
}

/// The clash of a token with a later one.
fn clash_with(ctx: &Ctx, store: &Store, x: u32, y: u32) -> Option<Flaw>
    requires lent { IsLent ctx.now.task.now ctx.now.tables.now store.now }
    ensures { IsFirstOf store.now.sheet (IsClashWith store.now.task store.now.sheet x y) result }
{
    if x < y
        && store.clash(ctx, Cand::Tok(x), Cand::Tok(y))
        && !store.before(x, y)
        && !store.before(y, x)
    {
        Some(Flaw::Clash {
            first: x,
            second: y,
        })
    } else {
        None
    }
}

/// The first clash of a token with a later one.
fn clash_of(ctx: &Ctx, store: &Store, x: u32) -> Option<Flaw>
    requires lent { IsLent ctx.now.task.now ctx.now.tables.now store.now }
    ensures { IsFirstOf store.now.sheet (IsClashOf store.now.task store.now.sheet x) result }
{
    let Kind::Act(act) = store.kind_at(Cand::Tok(x)) else {
        return None;
    };
    let mut first = None;
    let rivals = store.rivals(act);
    for rival in rivals {
        let found = clash_with(ctx, store, x, *rival);
        first = earlier(store, first, found);
    }
    first
}

/// The first clash.
fn first_clash(ctx: &Ctx, store: &Store) -> Option<Flaw>
    requires lent { IsLent ctx.now.task.now ctx.now.tables.now store.now }
    ensures { IsFirstOf store.now.sheet (AreBelow (IsClashOf store.now.task store.now.sheet) (length store.now.sheet.tokens)) result }
{
    for x in 0..store.tokens() {
        let found = clash_of(ctx, store, x);
        if found.is_some() {
            return found;
        }
    }
    None
}

/// The first flaw of the sheet in the order of choice. It takes no memory.
pub fn first_flaw(ctx: &Ctx, store: &Store) -> Option<Flaw>
    requires lent { IsLent ctx.now.task.now ctx.now.tables.now store.now }
    ensures { IsChoice ctx.now.task.now store.now.sheet result }
{
    match of_lists(ctx, store) {
        Some(flaw) => Some(flaw),
        None => first_clash(ctx, store),
    }
}
