//! Tests of every command over files, reads and an output that end early.
#![tactic(auto)]

#[cfg(test)]
mod counting;
#[cfg(test)]
mod failing;
#[cfg(test)]
mod fronts;
#[cfg(test)]
mod scene;
#[cfg(test)]
mod texts;
