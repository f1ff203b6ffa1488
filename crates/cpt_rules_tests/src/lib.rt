//! Tests of the store and the rules together, beside the calculus.
#![tactic(auto)]

#[cfg(test)]
mod chains;
#[cfg(test)]
mod proposals;
#[cfg(test)]
mod turns;
#[cfg(test)]
mod walks;
