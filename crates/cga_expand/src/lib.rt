//! One expansion: what a shape becomes by the rules of its symbol, or the first fault in reading order.
//!
//! It must not know how shapes are kept and found: what other shapes are to one is in its answers. On it stand the
//! definitions of all above: the derivation of sources, its run, and which shapes an edit touches.
//!
//! What callers get wrong: the order. A fault comes where it stands in the text, and nothing is emitted then.
#![tactic(auto)]

mod by_place;
mod choice;
mod choose;
pub mod derivations;
mod emit;
mod faults;
pub mod laws;
pub mod limits;
mod parts;
mod places;
mod progress;
mod rules;
mod scopes;
mod walk;

pub use by_place::RulesByPlace;
pub use progress::Progress;
pub use rules::{ExpandKey, Expansions, expand, expand_by_place};
