//! Who knows the names of actions.

ghost use Rattle.std.specs.Prelude.{◌≡◌, ◌<◌, ◌^◌, ℕ, List, length};
ghost use Rattle.cpt_plan_text.specs.Knowing.{action_named, task_finds};

use cpt_task::{Action, Task};

/// What is known of a name.
#[derive(Clone, Copy, Debug, PartialEq, Eq)]
pub enum Found {
    /// The action of this number.
    Known(u32),
    /// No action of the task, but one of this duration that can never start.
    Unreachable(u32),
    /// No action at all.
    Unknown,
}

/// Names of actions, spelled in lower case, in parentheses, with one space between two words.
pub trait Roster {
    ghost use Rattle.cpt_plan_text.specs.declared.roster.Found.{Found};

    /// What is known of each name.
    ghost finds: { Self → List ℕ → Found };

    /// What is known of the name. It takes no memory.
    fn find(&self, name: &[u8]) -> Found
        ensures { result ≡ finds self.now name.now };
}

fn find_action(actions: &[Action], name: &[u8]) -> Found
    requires { length actions.now < 2 ^ 31 }
    ensures { result ≡ action_named actions.now 0 name.now }
{
    for (k, a) in actions.iter().enumerate() {
        if a.name.as_slice() == name {
            return Found::Known(k as u32);
        }
    }
    Found::Unknown
}

/// A task knows its actions, by the least number where several have one name.
impl Roster for Task {
    ghost finds = { task_finds };

    fn find(&self, name: &[u8]) -> Found {
        find_action(self.actions(), name)
    }
}
