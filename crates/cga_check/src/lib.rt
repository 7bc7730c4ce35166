//! Whether a grammar is valid, the rules of a symbol, and what these rules mention.
//!
//! It must not know what a rule does to a shape or how it is written. It looks at trees and computes nothing.
//!
//! What callers get wrong: the order. A grammar is checked as its rules stand in the list, and the rule that a fault
//! names is the one that comes too late, not the one with the greater id.
#![tactic(auto)]

mod checks;
mod groups;
mod latest;
pub mod laws;
mod mentions;
mod said;
mod sieve;
mod symbols;
mod usage;

pub use checks::{MOST_ATTRIBUTES, MOST_RULES, check};
pub use groups::{group_of, symbol_priority};
pub use latest::Latest;
pub use mentions::{mentions_attribute, mentions_target, symbol_asks, symbol_names};
pub use said::{Said, said_of};
pub use symbols::Symbols;
