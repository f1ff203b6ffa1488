//! Tests of the store, the rules and the engine together, over tasks with their tables.
#![tactic(auto)]

#[cfg(test)]
mod calls;
#[cfg(test)]
mod commands;
#[cfg(test)]
mod moves;
#[cfg(test)]
mod resource;
