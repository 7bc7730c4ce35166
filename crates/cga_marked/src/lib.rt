//! A slab and a map that can go back to a mark: entries under numbers, and ids under names. Going back, or dropping the
//! mark, takes the time of what changed.
//!
//! It must not know what an entry or an id holds, or what an entry keeps for the mark. Room is taken ahead, so that no
//! change and no way back takes memory.
//!
//! What callers get wrong: an entry that is set aside is still under its number, and shows in `get`, until the mark's
//! end. A name that goes leaves its place to the last one.
#![tactic(auto)]

mod change;
mod counted_slab;
mod entries;
mod marked;
mod marked_map;
mod marked_slab;
mod numbers;
mod sort;
mod step;

pub use change::Change;
pub use marked::Marked;
pub use marked_map::MarkedMap;
pub use marked_slab::MarkedSlab;
pub use sort::Sort;
