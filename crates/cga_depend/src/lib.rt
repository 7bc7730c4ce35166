//! Which shapes an edit of a rule or of an attribute reaches: the nodes of each symbol, what nodes that came and went make
//! of them, and about which symbols two grammars don't agree, in their rules or in what their shapes read of a grammar.
//!
//! It must not know where a node stands or what a rule does.
//!
//! What callers get wrong: two things. A node is listed under the symbol that it was added with. Nothing looks at the
//! node, so a caller takes it out by the same symbol. And rules of another id are other rules, though they say the same.
#![tactic(auto)]

mod apart;
mod asking;
mod changed;
mod dependents;
mod group;
mod log;
mod nodes;
mod setting;

pub use asking::asking_nodes;
pub use changed::{Facts, Grammars};
pub use dependents::Dependents;
pub use group::same_group;
pub use log::{Pairing, apply};
pub use setting::same_setting;
