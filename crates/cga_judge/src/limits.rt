/// The most shapes of sources whose trace is judged.
pub const MOST_SHAPES: u32 = 400_000;
