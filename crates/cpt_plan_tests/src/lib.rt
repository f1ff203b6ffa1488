//! Tests of the commands that tighten and explain plans.
#![tactic(auto)]

#[cfg(test)]
mod explained;
#[cfg(test)]
mod scene;
#[cfg(test)]
mod tightened;
