//! A bill of what is drawn: for each symbol how many instances there are, and the sums of their fronts and volumes.
//!
//! It must not know how instances come about or what a command is. It is kept while instances are removed and created.
//!
//! What callers get wrong: the removed and the created instances have to account for all of both lists, each instance
//! as often, whatever their order.
#![tactic(auto)]

mod bill;
mod lines;
mod measure;
mod sums;
mod text;

pub use bill::Bill;
pub use sums::Sums;
