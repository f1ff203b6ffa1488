//! Two lists as one of pairs.

ghost use Rattle.std.specs.Prelude.{◌≡◌, Ok};
ghost use Rattle.std.specs.List.{zip};
ghost use Rattle.cpt_pddl.specs.Faults.{Gives};

use crate::fault::Fault;
use std::alloc::Global;

/// The elements of two vectors in pairs, as far as both go.
pub fn paired<A: Drop, B: Drop>(
    alloc: Global,
    firsts: Vec<A>,
    seconds: Vec<B>,
) -> Result<Vec<(A, B)>, Fault>
    ensures { Gives (λ pairs. pairs.items) result (Ok (zip firsts.items seconds.items)) }
{
    let mut firsts = firsts;
    let mut seconds = seconds;
    firsts.reverse();
    seconds.reverse();
    let mut pairs = Vec::new(alloc);
    while let Some(first) = firsts.pop() {
        let Some(second) = seconds.pop() else {
            return Ok(pairs);
        };
        pairs.push((first, second))?;
    }
    Ok(pairs)
}
