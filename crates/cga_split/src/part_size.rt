use cga_fraction::Fraction;

/// The size of a part of a split, along the axis: a length in the lot's unit, or a factor that shares what the
/// lengths leave.
#[derive(Clone, Copy, Debug, PartialEq, Eq)]
pub enum PartSize {
    Absolute(Fraction),
    Relative(Fraction),
}
