//! The forms of rules and of the lines of a block of rules: which tokens are one, and which grammar the lines of a
//! block say.
//!
//! It must not know whether a rule can be applied. What is told of a line, of whatever form, is `cga_form`'s.
//!
//! What callers get wrong: the fault's place. It is the first token with which no rule could go on, or the end of the
//! line, which comes after blanks and a comment. And a block with more rules or attributes than a grammar may have is
//! not read whole: the reader gives one too many of them.
#![tactic(auto)]

pub mod block;
mod block_line;
mod cond;
mod expr;
mod first;
pub mod forms;
pub mod gathered;
mod item;
mod keep;
mod laws;
pub mod limits;
mod members;
mod parts;
mod printed;
pub mod rule;
mod triples;

pub use block_line::BlockLine;
pub use cga_form::LineFault;
pub use forms::{RuleForm, parse_rule};
pub use gathered::{Gathered, GrammarFault, GrammarReader, read_block_line};
pub use laws::{says_end, spells_one, spells_one_line, tells_once, too_many_are_cut};
pub use printed::{grammar_reads_back, may_be_printed, reads_back};
