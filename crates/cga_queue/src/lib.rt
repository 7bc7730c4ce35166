//! The agenda of an edit as it is kept: numbers of nodes by the stamps at which they are to be looked at, the least
//! first, some of those that are known to be on it, and the last of some nodes.
//!
//! It must not know what a node is or why one is looked at again.
//!
//! What callers get wrong: an entry stays when its node goes, and a stamp has one entry. A number that is put where
//! another stands takes its place.
#![tactic(auto)]

mod agenda;
mod chained;
mod due;
mod last;
mod lines;
mod remembered;

pub use agenda::Agenda;
pub use chained::Chained;
pub use due::{add, add_all, add_later, take};
pub use last::{Last, last_among, last_at};
pub use remembered::Remembered;
