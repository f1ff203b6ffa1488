//! Tests of the readers of parenthesised texts, domains and problems: texts with their faults, and texts read whole.
#![tactic(auto)]

#[cfg(test)]
mod ancestry;
#[cfg(test)]
mod domain_features;
#[cfg(test)]
mod domain_limits;
#[cfg(test)]
mod domain_names;
#[cfg(test)]
mod domain_rows;
#[cfg(test)]
mod domain_shapes;
#[cfg(test)]
mod domains;
#[cfg(test)]
mod parsing;
#[cfg(test)]
mod problem_faults;
#[cfg(test)]
mod problem_features;
#[cfg(test)]
mod problem_shapes;
#[cfg(test)]
mod problems;
#[cfg(test)]
mod scene;
