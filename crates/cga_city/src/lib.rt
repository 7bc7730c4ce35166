//! A city: sources that edits change, and what they come to.
//!
//! It must not know lines, texts or how shapes are derived.
//!
//! What callers get wrong: an edit that is refused leaves the city as it was, but one that finds no memory may leave it
//! cold, and then no report may be asked for.
#![tactic(auto)]

mod changed_sources;
mod city;
mod edited;
mod edits;
mod empty;
mod grammars;
pub mod laws;
pub mod limits;
mod lots;
mod no_lot;
mod reports;
mod walk;
mod within;

pub use cga_shape::{Counts, Edit, EditRefused};
pub use city::City;
pub use no_lot::NoLot;
