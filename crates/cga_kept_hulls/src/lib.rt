//! What a tree keeps of boxes: the hulls of a node and all below it, hulls over runs of roots, and boxes that are taken
//! ahead to write hulls into.
//!
//! It must not know what a node is, how nodes hang together, or what a mark is. It is given scopes and boxes. (The
//! program that prints the boxes of lots is cga_hulls.)
//!
//! What callers get wrong: the hulls of a block hold those at its places and needn't be the least; of a block that isn't
//! there nothing is known, and it touches everything.
#![tactic(auto)]

mod blocks;
mod hulls;
mod hulls_box;
mod kept_hulls;
mod level;
mod spares;

pub use blocks::Blocks;
pub use hulls::Hulls;
pub use hulls_box::HullsBox;
pub use kept_hulls::KeptHulls;
pub use spares::Spares;
