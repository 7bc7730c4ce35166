/// The most rules that are kept of a block: one more than a grammar may have, so that a check finds them too many.
pub const KEPT_RULES: usize = 513;

/// The most attributes that are kept of it, likewise.
pub const KEPT_ATTRIBUTES: usize = 129;
