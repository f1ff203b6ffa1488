//! Tests of certificates as they are judged, whole and with one change.
#![tactic(auto)]

#[cfg(test)]
mod certs;
#[cfg(test)]
mod changed;
#[cfg(test)]
mod expected;
#[cfg(test)]
mod faults;
#[cfg(test)]
mod judged;
#[cfg(test)]
mod scene;
