//! Laws of the output: a line is one command, states are within the budget, an undo is never refused and restores,
//! refusals change nothing, told replies stay, and a dump read back gives its sources.
//!
//! It must not know how bytes are read and written or what keeps a city. The crate holds definitions and laws alone,
//! over lines and sources.
//!
//! What callers get wrong: a law is of the definition of the output, and a call does nothing. That a program's bytes
//! are that output is what `run_city` promises.
#![tactic(auto)]

mod laws;

pub use laws::{
    blocks_are_told, commands_are_told, dumps_are_set_back, every_dump_is_set_back,
    refusals_change_nothing, states_are_within_the_budget, undo_is_never_refused, undo_restores,
    what_was_told_stays,
};
