//! Components of a scope: its faces, edges and vertices, as scopes.
//!
//! It must not know symbols, rules or solids.
//!
//! What callers get wrong: a scope that is flat along one axis has edges and vertices, but no faces; edges are then
//! numbered again, from 1 to 4.
#![tactic(auto)]

mod flat_scope;
mod rows;
mod select;

pub use flat_scope::FlatScope;
pub use select::components;
