//! Tests of JSON texts.
#![tactic(auto)]

#[cfg(test)]
mod limits;
#[cfg(test)]
mod plan_texts;
#[cfg(test)]
mod scene;
#[cfg(test)]
mod sizes;
#[cfg(test)]
mod task_texts;
#[cfg(test)]
mod written;
