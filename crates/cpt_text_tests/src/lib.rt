//! Tests of files, of task texts and plan texts, and of pruning.
#![tactic(auto)]

#[cfg(test)]
mod files;
#[cfg(test)]
mod plan_texts;
#[cfg(test)]
mod pruning;
#[cfg(test)]
mod task_texts;
