//! The judge of a trace: whether given steps are the run of sources.
//!
//! It must not know kept trees, hulls, edits or texts. The sources are derived from nothing, each query over the whole list,
//! and each step is compared with the given one.
//!
//! What callers get wrong: steps that are right one by one, in another order than that of the derivation, are rejected.
#![tactic(auto)]

mod judging;
pub mod laws;
pub mod limits;
mod same;
mod verdict;

pub use judging::judge;
pub use verdict::Verdict;
