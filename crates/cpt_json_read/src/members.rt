//! The members of JSON objects that have certain keys and no others.

ghost use Rattle.std.specs.Prelude.{◌≡◌, ◌≢◌, MatchOption};
ghost use Rattle.serde_json.specs.Data.{Data, Members, member};
ghost use Rattle.serde_json.specs.View.{members_view, view};
ghost use Rattle.cpt_json_form.specs.Values.{action_object, item_object, task_object, timed_object};

use serde_json::Value;
use std::collections::btree_map::Iter;

/// The next member, where it has this key.
fn take_member<'a>(members: &mut Iter<'a, String, Value>, key: &str) -> Option<&'a Value>
    ensures { MatchOption result ((d : Data) (rest : Members) → members_view members.old ≢ member key.now d rest) (λ v. members_view members.old ≡ member key.now (view v.now) (members_view members.new)) }
{
    let (name, value) = members.next()?;
    if name.as_str() == key {
        Some(value)
    } else {
        None
    }
}

/// The members of a task.
#[derive(Clone, Copy)]
pub struct TaskMembers<'a> {
    pub actions: &'a Value,
    pub atoms: &'a Value,
    pub goal: &'a Value,
    pub init: &'a Value,
}

/// The members of a task, where the value is an object with their keys alone.
pub fn task_members(value: &Value) -> Option<TaskMembers<'_>>
    ensures { MatchOption result ((a b c d : Data) → view value.now ≢ task_object a b c d) (λ m. view value.now ≡ task_object (view m.actions.now) (view m.atoms.now) (view m.goal.now) (view m.init.now)) }
{
    let mut members = value.as_object()?.iter();
    let actions = take_member(&mut members, "actions")?;
    let atoms = take_member(&mut members, "atoms")?;
    let goal = take_member(&mut members, "goal")?;
    let init = take_member(&mut members, "init")?;
    if members.next().is_some() {
        return None;
    }
    Some(TaskMembers {
        actions,
        atoms,
        goal,
        init,
    })
}

/// The members of an action.
#[derive(Clone, Copy)]
pub struct ActionMembers<'a> {
    pub add: &'a Value,
    pub del: &'a Value,
    pub dur: &'a Value,
    pub name: &'a Value,
    pub pre: &'a Value,
}

/// The members of an action, where the value is an object with their keys alone.
pub fn action_members(value: &Value) -> Option<ActionMembers<'_>>
    ensures { MatchOption result ((a b c d e : Data) → view value.now ≢ action_object a b c d e) (λ m. view value.now ≡ action_object (view m.add.now) (view m.del.now) (view m.dur.now) (view m.name.now) (view m.pre.now)) }
{
    let mut members = value.as_object()?.iter();
    let add = take_member(&mut members, "add")?;
    let del = take_member(&mut members, "del")?;
    let dur = take_member(&mut members, "dur")?;
    let name = take_member(&mut members, "name")?;
    let pre = take_member(&mut members, "pre")?;
    if members.next().is_some() {
        return None;
    }
    Some(ActionMembers {
        add,
        del,
        dur,
        name,
        pre,
    })
}

/// The duration, the name and the start of an item of a plan that says them all, where the value is an object with their keys alone.
fn timed_members(value: &Value) -> Option<(&Value, &Value, &Value)>
    ensures { MatchOption result ((a b c : Data) → view value.now ≢ timed_object a b c) (λ m. view value.now ≡ timed_object (view m.0.now) (view m.1.now) (view m.2.now)) }
{
    let mut members = value.as_object()?.iter();
    let dur = take_member(&mut members, "dur")?;
    let name = take_member(&mut members, "name")?;
    let start = take_member(&mut members, "start")?;
    if members.next().is_some() {
        return None;
    }
    Some((dur, name, start))
}

/// The name and the start of an item of a plan that says no more.
fn untimed_members(value: &Value) -> Option<(&Value, &Value)>
    ensures { MatchOption result ((a b : Data) → view value.now ≢ item_object a b) (λ m. view value.now ≡ item_object (view m.0.now) (view m.1.now)) }
{
    let mut members = value.as_object()?.iter();
    let name = take_member(&mut members, "name")?;
    let start = take_member(&mut members, "start")?;
    if members.next().is_some() {
        return None;
    }
    Some((name, start))
}

/// The members of an item of a plan.
#[derive(Clone, Copy)]
pub struct ItemMembers<'a> {
    pub dur: Option<&'a Value>,
    pub name: &'a Value,
    pub start: &'a Value,
}

/// The members of an item of a plan, where the value is an object with their keys alone.
pub fn item_members(value: &Value) -> Option<ItemMembers<'_>>
    ensures { MatchOption result (((a b : Data) → view value.now ≢ item_object a b) × ((a b c : Data) → view value.now ≢ timed_object a b c))
        (λ m. MatchOption m.dur (view value.now ≡ item_object (view m.name.now) (view m.start.now)) (λ d. view value.now ≡ timed_object (view d.now) (view m.name.now) (view m.start.now))) }
{
    if let Some((name, start)) = untimed_members(value) {
        return Some(ItemMembers {
            dur: None,
            name,
            start,
        });
    }
    let (dur, name, start) = timed_members(value)?;
    Some(ItemMembers {
        dur: Some(dur),
        name,
        start,
    })
}
