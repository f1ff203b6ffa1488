//! Which functions give durations.

ghost use Rattle.std.specs.Prelude.{◌≡◌, IfOk, Ok};
ghost use Rattle.cpt_pddl.specs.Faults.{Gives};
ghost use Rattle.cpt_problem.specs.Keys.{AreDurationFunctions};
ghost use Rattle.cpt_problem.specs.Tables.{is_duration_function};

use cpt_pddl::Fault;
use cpt_schema::{Lasting, Schema};
use indexmap::IndexSet;
use std::alloc::Global;

/// The actions of a domain, with the functions whose values are durations of theirs.
#[derive(Drop)]
pub struct Timing<'a> {
    pub schemas: &'a [Schema],
    functions: IndexSet<u32>,
    ghost exact: { AreDurationFunctions schemas.now functions.keys },
}

fn duration_functions(alloc: Global, schemas: &[Schema]) -> Result<IndexSet<u32>, Fault>
    ensures functions { IfOk result (λ functions. AreDurationFunctions schemas.now functions.keys) }
    ensures given { Gives (λ _. tt {0}) result (Ok (tt {0})) }
{
    let mut functions = IndexSet::new(alloc);
    for s in schemas {
        if let Lasting::Value { func, .. } = &s.dur {
            functions.insert(*func)?;
        }
    }
    Ok(functions)
}

impl<'a> Timing<'a> {
    /// The actions, with their functions.
    pub fn of(alloc: Global, schemas: &'a [Schema]) -> Result<Timing<'a>, Fault>
        ensures { Gives (λ timing. timing.schemas.now) result (Ok schemas.now) }
    {
        let functions = duration_functions(alloc, schemas)?;
        Ok(Timing { schemas, functions })
    }

    /// Whether the duration of some action is the value of the function.
    pub fn is_duration(&self, func: u32) -> bool
        ensures { result ≡ is_duration_function self.now.schemas.now func }
    {
        self.functions.contains(&func)
    }
}
