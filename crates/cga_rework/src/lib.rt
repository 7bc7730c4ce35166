//! An edit, over any type of shapes: which shapes it touches, by the derivations before and after it. A rework by an
//! agenda ends in the new one, expands just the touched shapes, and records just the removed and created instances.
//!
//! It must not know geometry, rules or how nodes are stored. Old and new rules share the shapes, their lots and paths,
//! and the mode; a crate above says what its shapes and their settings are. It also says what a kept tree, a walk of it
//! and an agenda of numbers have to tell of a change, whatever the nodes hold, so that it is a turn of that work. It
//! computes nothing.
//!
//! What callers get wrong: a shape whose symbol's priority changed isn't kept, even if nothing else of it changed, so
//! it is touched, and so is all that stands below it; its parent isn't, and it is the parent whose turn places it again.
#![tactic(auto)]

pub mod laws;
