/// What would be drawn has more than 4,000,000 vertices or 16,000,000 numbers on faces.
#[derive(Clone, Copy, Debug, PartialEq, Eq)]
pub struct ModelTooLarge;
