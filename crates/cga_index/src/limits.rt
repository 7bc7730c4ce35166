//! How many roots are told of together, and how deep a tree is.

/// The roots of a block. A tree tells of a block as a whole whether it is apart from an area, so one test stands for so
/// many.
pub const BLOCK: usize = 16;

/// The roots of a group: a block of blocks.
pub const GROUP: usize = 256;

/// The greatest depth of a node. A root has depth 0. A town's shapes keep it, since one of that depth isn't expanded.
pub const MOST_DEPTH: usize = 256;

/// The levels of a tree of that depth: so many calls go from a root to its deepest node.
pub const LEVELS: usize = 257;
