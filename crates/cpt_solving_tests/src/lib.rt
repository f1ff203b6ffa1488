//! Tests of the search: worked tasks, solved by the engine over their best tables, and beside a plain recursion.
#![tactic(auto)]

#[cfg(test)]
mod closing;
#[cfg(test)]
mod found;
#[cfg(test)]
mod outcomes;
#[cfg(test)]
mod plain;
#[cfg(test)]
mod same;
#[cfg(test)]
mod solve;
#[cfg(test)]
mod tasks;
