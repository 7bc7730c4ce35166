//! The run of a derivation: told from the forest that is kept, written as text, and read again.
//!
//! It must not know how a derivation goes or what is judged.
//!
//! What callers get wrong: a line is read as it is, so that one with a further blank, a comment or a leading zero is
//! the text of no step.
#![tactic(auto)]

mod cuts;
mod fields;
mod judge_reader;
pub mod laws;
pub mod limits;
mod reading;
mod step_words;
mod text;
mod traced_turn;
mod tracing;
mod turns;
mod words;

pub use judge_reader::JudgeReader;
pub use reading::read_step;
pub use text::{judged_text, trace_text};
pub use tracing::trace;
