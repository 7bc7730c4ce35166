//! How many shapes an edit touches, as a number that is computed from the sources before and after it.
//!
//! It must not know how an edit is worked or how shapes are kept. `stats` prints the number, so that it has to be a
//! function of them; that a shape is touched is a fact of derivations, and here is the test that tells it. The crate
//! has definitions and laws, and no program code.
#![tactic(auto)]

pub mod laws;
