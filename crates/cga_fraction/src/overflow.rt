/// The exact result leaves the range of fractions.
#[derive(Clone, Copy, Debug, PartialEq, Eq)]
pub struct Overflow;

/// Why a quotient is refused.
#[derive(Clone, Copy, Debug, PartialEq, Eq)]
pub enum DivFault {
    ZeroDivide,
    Overflow,
}
