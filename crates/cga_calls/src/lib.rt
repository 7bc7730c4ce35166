//! Tests of calls of one crate alone that no script shows: stamps, the adapters over the standard library's readers and
//! writers, a worker and a tree that are no city's, and `derive`, which only the judge calls.
//!
//! It must not know cities and scripts as they run. It has no code beside its tests, so that no other crate is proved
//! once more for them. What wants `run_city` is in `cga_tests`; what a script can show belongs into the folder `rows`.
#![tactic(auto)]

#[cfg(test)]
mod adapters;
#[cfg(test)]
mod derived;
#[cfg(test)]
mod one_lot;
#[cfg(test)]
mod stamps;
#[cfg(test)]
mod two_roots;
