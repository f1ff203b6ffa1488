//! The ground task of a reading with absence.

ghost use Rattle.std.specs.Prelude.{◌≡◌, IfOk};
ghost use Rattle.std.specs.List.{AllZip};
ghost use Rattle.cpt_ground.specs.Compilable.{IsCompilable, IsTaskOf};
ghost use Rattle.cpt_ground.specs.Compiled.{IsCompiledAction};
ghost use Rattle.cpt_ground.specs.Literals.{AreSorted, literals_of};

use crate::literal_names::literal_names;
use crate::literals::Literals;
use crate::numbering::{chosen_numbers, initial_numbers};
use crate::signed::{Signed, SignedAction};
use cpt_domain::Domain;
use cpt_facts::Problem;
use cpt_task::{Action, List, Memory, Name, Task};
use std::alloc::Global;

fn copy_of(alloc: Global, name: &Name) -> Result<Name, Memory>
    ensures { IfOk result (λ copy. copy ≡ name.now) }
{
    Ok(List::from_vec(Vec::from_slice(alloc, name.as_slice())?))
}

fn compiled_action(
    alloc: Global,
    literals: &Literals<'_>,
    action: &SignedAction,
) -> Result<Action, Memory>
    requires { AreSorted literals.now }
    ensures { IfOk result (IsCompiledAction (literals_of literals.now) action.now) }
{
    let present = action.present.as_slice();
    let absent = action.absent.as_slice();
    let add = action.add.as_slice();
    let dele = action.dele.as_slice();
    Ok(Action {
        name: copy_of(alloc, &action.name)?,
        dur: action.dur,
        pre: chosen_numbers(alloc, literals, present, absent, &[])?,
        add: chosen_numbers(alloc, literals, add, dele, add)?,
        dele: chosen_numbers(alloc, literals, dele, add, &[])?,
    })
}

fn compiled_actions(
    alloc: Global,
    literals: &Literals<'_>,
    actions: &[SignedAction],
) -> Result<Vec<Action>, Memory>
    requires { AreSorted literals.now }
    ensures { IfOk result (λ compiled. AllZip (IsCompiledAction (literals_of literals.now)) actions.now compiled.items) }
{
    let mut compiled = Vec::new(alloc);
    for action in actions {
        compiled.push(compiled_action(alloc, literals, action)?)?;
    }
    Ok(compiled)
}

/// The ground task of a reading with absence: its atoms are the plain atoms that it uses and, behind them, the
/// complements of those that something needs absent. An action deletes the complements of what it adds, and adds
/// those of what it deletes and does not add.
pub fn compile(
    alloc: Global,
    domain: &Domain,
    problem: &Problem,
    signed: &Signed,
) -> Result<Task, Memory>
    requires { IsCompilable domain.now problem.now signed.now }
    ensures { IfOk result (IsTaskOf domain.now problem.now signed.now) }
{
    let literals = Literals::of(alloc, signed)?;
    let names = literal_names(alloc, domain, problem, &literals)?;
    let actions = compiled_actions(alloc, &literals, signed.actions.as_slice())?;
    let init = initial_numbers(alloc, &literals, signed.init.as_slice())?;
    let goal = chosen_numbers(
        alloc,
        &literals,
        signed.goal.as_slice(),
        signed.absent.as_slice(),
        &[],
    )?;
    Ok(Task::build(names, actions, init, goal).unwrap())
}
