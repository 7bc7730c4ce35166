/// The greatest id of a rule; the least is 1.
pub const LAST_ID: u32 = 999_999;

/// The greatest priority of a symbol; the least is 0.
pub const LAST_PRIORITY: u32 = 65_535;

/// The most parameters or arguments after the first.
pub const MOST_FURTHER: usize = 3;

/// The greatest number of an edge; the least is 1.
pub const LAST_EDGE: u32 = 12;

/// The most steps of a rand; the fewest are 1.
pub const MOST_STEPS: u32 = 1_000_000;
