//! Tests of `run_city` that no script shows: ends that fail in the middle of a script, and replies that come before
//! more is read.
//!
//! It must not know how a city keeps its shapes. It has no code beside its tests, so that no other crate is proved once
//! more for them. What a script can show belongs into the folder `rows`.
#![tactic(auto)]

#[cfg(test)]
mod ends;
#[cfg(test)]
mod line_by_line;
#[cfg(test)]
mod runs;
