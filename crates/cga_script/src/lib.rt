//! The script's text: the cutting of any pieces into lines, and what each line asks for.
//!
//! It must not know where pieces come from or what a command does.
//!
//! What callers get wrong: a line that is ready has to be cleared before more is fed.
#![tactic(auto)]

pub mod city_gathered;
mod city_line;
pub mod command_form;
mod dump;
mod ending;
mod fed;
pub mod heads;
mod laws;
mod lines;
mod long_dump;
pub mod lot_form;
mod named_lots;
mod refusals;
mod refused;
mod script_command;
mod telling_lines;
mod version;
mod words;

pub use city_gathered::{CityGathered, CityReader};
pub use city_line::CityLine;
pub use command_form::{VersionOneForm, VersionTwoForm, command};
pub use dump::dump_text;
pub use ending::Ending;
pub use fed::Fed;
pub use laws::{dump_reads_back, may_be_printed, tells_one_command, too_many_are_cut};
pub use lines::{Lines, blank_front};
pub use long_dump::LongDump;
pub use lot_form::LotForm;
pub use refusals::refusal_text;
pub use refused::Refused;
pub use script_command::ScriptCommand;
pub use telling_lines::{ends_block, is_blank, version_line};
pub use version::Version;
