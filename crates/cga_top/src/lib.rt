//! The top call: replies to a script, each line as it is complete, while the script is read.
//!
//! It must not know which reader and writer the system has. What a line does is the session's matter; moving bytes is
//! the matter of `pump`, `reads` and `top`, which know of lines only that each has an effect. A program that
//! writes more behind a reply than the reply gives its `Talker`.
//!
//! What callers get wrong: only Done says that all was written. After WriteFault and NoMemory the sink holds some of
//! the output, and may hold a reply in part. A run of a source ends with its program: the memory of its town is given
//! back by no one but the system.
#![tactic(auto)]

mod commands;
mod decimals;
mod dresses;
mod edits;
mod halt;
mod hulls;
mod laws;
mod models;
mod open_block;
mod print_lots;
mod pump;
mod read_end;
mod reads;
mod report;
mod reports;
mod script_end;
mod session;
mod stats;
mod talker;
mod telling;
mod top;
mod traces;
mod turns;
mod whole;

pub use cga_words::{Status, town_script};
pub use decimals::Decimals;
pub use halt::Halt;
pub use laws::one_too_many_is_refused_as_all;
pub use session::{Session, new_session};
pub use talker::Talker;
pub use telling::run_with_hulls;
pub use top::{run_city, run_script};
pub use turns::do_line;
pub use whole::reply;
