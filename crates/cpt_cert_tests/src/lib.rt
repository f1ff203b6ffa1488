//! Tests of the lines of certificates and of their texts.
#![tactic(auto)]

#[cfg(test)]
mod lines;
#[cfg(test)]
mod printed;
