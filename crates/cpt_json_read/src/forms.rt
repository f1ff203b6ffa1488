//! Tasks as their JSON texts give them, before their numbers and names are looked at, and items of plans.

ghost use Rattle.std.specs.Prelude.{◌≡◌, length, vec_len};
ghost use Rattle.cpt_json_form.specs.Values.{action_value, item_value, task_value};

use crate::members::{action_members, item_members, task_members};
use crate::values::{FromValue, list_of};
use cpt_json_form::{Misread, PlanItem};
use cpt_task::{List, Name};
use serde_json::Value;
use std::alloc::Global;
use std::marker::Model;

/// An action with any name, and any numbers of 64 bits.
#[derive(Drop)]
pub struct ActionForm {
    pub name: Name,
    pub dur: u64,
    pub pre: List<u64>,
    pub add: List<u64>,
    pub dele: List<u64>,
}

impl Model for ActionForm {
    ghost use Rattle.cpt_task.specs.declared.task.Action.{Action};

    ghost Value = { Action };

    ghost view = { λ a. record { name = a.name; dur = a.dur; pre = a.pre; add = a.add; dele = a.dele } };
}

impl FromValue for ActionForm {
    ghost form = { action_value };

    fn from_value(alloc: Global, value: &Value) -> Result<ActionForm, Misread> {
        let Some(members) = action_members(value) else {
            return Err(Misread::Shape);
        };
        let add = list_of(alloc, members.add)?;
        let dele = list_of(alloc, members.del)?;
        let dur = u64::from_value(alloc, members.dur)?;
        let name = Name::from_value(alloc, members.name)?;
        let pre = list_of(alloc, members.pre)?;
        Ok(ActionForm {
            name,
            dur,
            pre,
            add,
            dele,
        })
    }
}

/// A task with any names, and any numbers of 64 bits.
#[derive(Drop)]
pub struct TaskForm {
    atoms: List<Name>,
    actions: List<ActionForm>,
    init: List<u64>,
    goal: List<u64>,
}

impl Model for TaskForm {
    ghost use Rattle.cpt_task.specs.Shape.{TaskShape};

    ghost Value = { TaskShape };

    ghost view = { λ t. record { atoms = t.atoms; actions = t.actions; init = t.init; goal = t.goal } };
}

impl TaskForm {
    /// The names of its atoms.
    pub fn atoms(&self) -> &[Name]
        ensures { result.now ≡ self.now.atoms }
    {
        self.atoms.as_slice()
    }

    /// Its actions.
    pub fn actions(&self) -> &[ActionForm]
        ensures { result.now ≡ self.now.actions }
    {
        self.actions.as_slice()
    }

    /// The numbers of the atoms that hold at first.
    pub fn init(&self) -> &[u64]
        ensures { result.now ≡ self.now.init }
    {
        self.init.as_slice()
    }

    /// The numbers of the atoms that are to hold in the end.
    pub fn goal(&self) -> &[u64]
        ensures { result.now ≡ self.now.goal }
    {
        self.goal.as_slice()
    }

    /// Gives the names of its atoms away.
    pub fn into_atoms(self) -> Vec<Name>
        ensures items { result.items ≡ self.atoms }
        ensures len { vec_len result ≡ length self.atoms }
    {
        self.atoms.into_vec()
    }
}

impl FromValue for TaskForm {
    ghost form = { task_value };

    fn from_value(alloc: Global, value: &Value) -> Result<TaskForm, Misread> {
        let Some(members) = task_members(value) else {
            return Err(Misread::Shape);
        };
        let actions = list_of(alloc, members.actions)?;
        let atoms = list_of(alloc, members.atoms)?;
        let goal = list_of(alloc, members.goal)?;
        let init = list_of(alloc, members.init)?;
        Ok(TaskForm {
            atoms,
            actions,
            init,
            goal,
        })
    }
}

impl FromValue for PlanItem {
    ghost form = { item_value };

    fn from_value(alloc: Global, value: &Value) -> Result<PlanItem, Misread> {
        let Some(members) = item_members(value) else {
            return Err(Misread::Shape);
        };
        let dur = match members.dur {
            Some(dur) => Some(u64::from_value(alloc, dur)?),
            None => None,
        };
        let name = Name::from_value(alloc, members.name)?;
        let start = u64::from_value(alloc, members.start)?;
        Ok(PlanItem { name, start, dur })
    }
}
