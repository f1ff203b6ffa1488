//! Tests of the search's memory: cells with marks.
#![tactic(auto)]

#[cfg(test)]
mod cells;
