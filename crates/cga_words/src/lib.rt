//! What the programs share with the shell: the words of the command line, the script of the town, which the words may
//! ask for, and how a run ends, with its exit status and its line on standard error.
//!
//! It must not know what a script says.
//!
//! What callers get wrong: words that leave an option out still say its value, so an absent number of decimals is 6,
//! and only an absent town is None.
#![tactic(auto)]

mod ending;
mod exit;
mod given;
mod program_name;
mod read;
mod status;
mod town;
mod townless;
mod wanted;
mod wordless;
mod words_fault;

pub use ending::end;
pub use exit::{Exit, exit_of};
pub use given::given_words;
pub use program_name::ProgramName;
pub use read::read_words;
pub use status::Status;
pub use town::town_script;
pub use townless::read_decimals;
pub use wanted::Wanted;
pub use wordless::read_none;
pub use words_fault::WordsFault;
