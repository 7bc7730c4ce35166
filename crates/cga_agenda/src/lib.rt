//! The work of an edit by an agenda, for any type of shapes.
//!
//! It must not know geometry, rules or how nodes are kept and found. A list of nodes is kept, each with the answers
//! that it was expanded with; shapes whose inputs may differ are on the agenda; one turn takes the one of least stamp
//! off, asks it again, and expands it again only if its inputs differ. A `Worker` does the turns. What holds between
//! turns is said without the new derivation. When nothing is on the agenda the nodes are its members, those expanded
//! are just those touched, and the record of change accounts for each instance.
//!
//! What callers get wrong: the known members alone don't bound the turns, so both are counted against the budget.
#![tactic(auto)]

mod agenda;
mod ended;
pub mod laws;
mod turned;
mod worker;

pub use agenda::work;
pub use ended::Ended;
pub use turned::Turned;
pub use worker::Worker;
