//! What rules are written as: tokens as lexemes, in which a reserved word is a keyword, the pieces of each tree, what
//! is spelled so, and the texts of rules and grammars.
//!
//! It must not know lines and places. The trees are those of `cga_rule`, given again.
//!
//! What callers get wrong: the condition of printing. A tree that no line spells may be printed, and what no line
//! spells of it is left out.
#![tactic(auto)]

mod keyword;
mod lexeme;
pub mod limits;
mod print;

pub use cga_rule::{
    Added, Alternative, Attribute, Body, CheckFault, Cond, Conj, Entry, Expr, Factor, Grammar,
    Group, Item, Primary, Relation, Rule, Scaled, Size, Term, Test,
};
pub use keyword::Keyword;
pub use lexeme::Lexeme;
pub use print::{Space, lexes_back, print_grammar, print_rule, spells_back};
