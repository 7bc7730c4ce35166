/// The depth at which a shape isn't expanded any more. A root has depth 0.
pub const MOST_DEPTH: usize = 256;

/// The most children that one expansion emits.
pub const MOST_CHILDREN: usize = 4_096;

/// The most parts that all splits and components of one expansion make together.
pub const MOST_PARTS: usize = 10_000;

/// The parts that probabilities are counted in.
pub const MILLIONTHS: u64 = 1_000_000;
