//! What holds of `==`. The function does nothing: its contract is the law, which a caller's proof can cite.
ghost use Rattle.cga_shape.specs.Equal.{EqualExactly};

/// `==` of shapes, which is derived, tells exactly whether they are equal.
pub fn equal_exactly()
    ensures { EqualExactly }
{}
