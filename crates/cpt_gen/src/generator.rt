//! A problem with its domain.

ghost use Rattle.std.specs.Prelude.{◌≡◌, ◌≤◌, IfOk};
ghost use Rattle.cpt_gen.specs.Texts.{domain_text, problem_text};

use crate::domain::domain_bytes;
use crate::problem::problem_bytes;
use cpt_task::{List, Memory};
use std::alloc::Global;

/// The texts of a domain and of a problem over it.
#[derive(Drop)]
pub struct Made {
    pub domain: List<u8>,
    pub problem: List<u8>,
}

/// The problem with `n` packages that one truck brings from the first place to the last, along `n` roads in a row.
pub fn make(alloc: Global, n: u32) -> Result<Made, Memory>
    requires least { 1 ≤ n }
    requires most { n ≤ 40 }
    ensures domain { IfOk result (λ made. made.domain ≡ domain_text) }
    ensures problem { IfOk result (λ made. made.problem ≡ problem_text n) }
{
    let domain = domain_bytes(alloc)?;
    let problem = problem_bytes(alloc, n)?;
    Ok(Made {
        domain: List::from_vec(domain),
        problem: List::from_vec(problem),
    })
}
