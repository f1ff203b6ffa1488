//! Tests of tables: admissible ones and the greatest ones.
#![tactic(auto)]

#[cfg(test)]
mod admissible;
#[cfg(test)]
mod distances;
#[cfg(test)]
mod pairs;
#[cfg(test)]
mod tasks;
