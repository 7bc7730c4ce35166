//! A derivation in the words of its definition: a plain list of members, of which at each step the waiting one of least
//! rank is expanded, until nothing waits or the list is over a budget.
//!
//! It must not know geometry, rules or how the next shape is found. Its shapes are of any type: a crate above says what
//! their lots, paths, priorities, answers and children are, proves that they make a derivation, and has its laws. It
//! computes nothing.
//!
//! What callers get wrong: a stamp is told from a list by the priorities of the members that stand in it, so it says
//! something of a shape only where its ancestors are there.
#![tactic(auto)]

pub mod laws;
