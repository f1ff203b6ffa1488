//! Tables of tests of the calculus: steps, decisions, flaws and dead sheets, worked out by hand.
#![tactic(auto)]

#[cfg(test)]
mod branching;
#[cfg(test)]
mod edits;
#[cfg(test)]
mod lists;
#[cfg(test)]
mod moments;
#[cfg(test)]
mod posts;
#[cfg(test)]
mod scene;
#[cfg(test)]
mod sheets;
#[cfg(test)]
mod steps;
