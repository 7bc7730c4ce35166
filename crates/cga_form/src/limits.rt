/// The most bytes of a line.
pub const LINE_LIMIT: usize = 4096;

/// The greatest seed: a whole number has at most 18 digits.
pub const LAST_SEED: u64 = 999_999_999_999_999_999;

/// The most brackets that may be open at once.
pub const MOST_OPEN: u8 = 32;
