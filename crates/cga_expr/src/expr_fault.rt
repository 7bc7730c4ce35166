/// Why an expression has no value: the first operation in reading order that is refused leaves the
/// range of fractions, or divides by 0.
#[derive(Clone, Copy, Debug, PartialEq, Eq)]
pub enum ExprFault {
    Overflow,
    ZeroDivide,
}
