//! Rules as trees: what a rule, its condition and its bodies are made of, grammars and groups of rules, the faults of a
//! check, and copies of rules and grammars, which share their parts.
//!
//! It must not know how a tree is written or what a rule does.
//!
//! What callers get wrong: the empty list. An alternative or a body without items is `NIL`, and no other list of a tree
//! that some line spells is empty, but for parameters and arguments.
#![tactic(auto)]

mod check_fault;
mod cond;
mod expr;
mod grammar;
mod item;
mod laws;
mod rule;

pub use check_fault::CheckFault;
pub use cond::{Cond, Conj, Relation, Test};
pub use expr::{Added, Expr, Factor, Primary, Scaled, Term};
pub use grammar::{Attribute, Entry, Grammar, Group};
pub use item::{Body, Item, Size};
pub use laws::equal_exactly;
pub use rule::{Alternative, Rule};
