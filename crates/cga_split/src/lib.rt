//! Splits of a scope along one of its axes: Subdiv by sizes, Repeat by a length.
//!
//! It must not know symbols or rules.
//!
//! What callers get wrong: parts stand by the cuts of the axis, and never by sums of rounded lengths, so what is given
//! covers the scope exactly, or the split is refused.
#![tactic(auto)]

mod part_size;
mod repeats;
mod split_fault;
mod subdivide;

pub use part_size::PartSize;
pub use repeats::repeat;
pub use split_fault::SplitFault;
pub use subdivide::subdiv;
