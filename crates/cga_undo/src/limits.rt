/// The most sources that are kept, past and future together.
pub const MOST_KEPT: usize = 16;
