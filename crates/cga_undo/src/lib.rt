//! Former sources of a city, to go back to and to go on to again.
//!
//! It must not know what an edit is or whether sources are valid.
//!
//! What callers get wrong: an undo isn't noted, since it moves the current sources to the future itself.
#![tactic(auto)]

mod history;
pub mod limits;

pub use history::History;
