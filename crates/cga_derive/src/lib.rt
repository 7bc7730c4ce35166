//! The derivation of sources from nothing: every shape once, by least rank, as a plain list.
//!
//! It must not know edits, reports or kept trees. Each query is one over the whole list, of which it passes the members
//! in a row whose common box the shape's doesn't touch.
//!
//! What callers get wrong: the list stands in order of emission, which is that of the parents' stamps, and not by lot
//! and path.
#![tactic(auto)]

mod answers;
mod derivation;
pub mod laws;
mod members;
mod over_budget;
mod run;
mod streak;

pub use derivation::derive;
pub use over_budget::OverBudget;
pub use run::Run;
