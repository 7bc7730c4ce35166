/// The most lots of a city.
pub const MOST_LOTS: usize = 4_096;

/// The most shapes that a city of the first version of scripts comes to.
pub const BUDGET: u32 = 100_000;

/// The most shapes that a city of the second version of scripts comes to.
pub const BUDGET_TWO: u32 = 400_000;
