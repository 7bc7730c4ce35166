//! Reading lines of any form: which tokens are a member, where the first fault is, and what the lines of a block say.
//!
//! It must not know which forms there are. A form is an `impl` of `Form`.
//!
//! What callers get wrong: the fault's place. It is the first token with which no member could go on, or the end of the
//! line, which comes after blanks and a comment.
#![tactic(auto)]

pub mod block_fault;
pub mod block_line;
pub mod block_reader;
pub mod chosen;
pub mod fault;
pub mod form;
pub mod gather;
pub mod heads;
pub mod laws;
pub mod limits;
pub mod line;
pub mod line_fault;
pub mod numbers;
pub mod parts;
pub mod place;
pub mod texts;
pub mod tokens;
pub mod value;
pub mod words;

pub use block_fault::BlockFault;
pub use block_line::read_block_line;
pub use block_reader::BlockReader;
pub use form::Form;
pub use gather::Gather;
pub use laws::{lines_tell_once, spells_one, tells_once};
pub use line::read_line;
pub use line_fault::LineFault;
