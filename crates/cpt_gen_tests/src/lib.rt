//! Tests of the generator of transport problems.
#![tactic(auto)]

#[cfg(test)]
mod sizes;
