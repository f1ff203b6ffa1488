//! Tests of the program's one call over files and an output in memory.
#![tactic(auto)]

#[cfg(test)]
mod calls;
#[cfg(test)]
mod checks;
#[cfg(test)]
mod counting;
#[cfg(test)]
mod parts;
#[cfg(test)]
mod pddl;
#[cfg(test)]
mod plans;
#[cfg(test)]
mod problems;
#[cfg(test)]
mod proving;
#[cfg(test)]
mod scene;
#[cfg(test)]
mod solving;
#[cfg(test)]
mod tasks;
#[cfg(test)]
mod words;
