/// Why there is no such scope.
#[derive(Clone, Copy, Debug, PartialEq, Eq)]
pub enum ScopeFault {
    NegativeSize,
    Overflow,
}
