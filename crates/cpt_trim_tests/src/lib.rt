//! Tests of trimmed certificates, and of lines that are counted.
#![tactic(auto)]

#[cfg(test)]
mod counted;
#[cfg(test)]
mod scene;
#[cfg(test)]
mod trimmed;
