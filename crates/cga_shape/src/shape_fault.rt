use cga_fraction::Stop;

/// Why a shape has no children.
#[derive(Clone, Copy, Debug, PartialEq, Eq)]
pub enum ShapeFault {
    /// It has as many ancestors as a shape may have.
    TooDeep,
    /// No rule of its symbol has a condition that holds.
    Unmatched,
    /// The result of an operation leaves the range.
    Overflow,
    /// A divisor is 0.
    ZeroDivide,
    /// A size is set below 0.
    NegativeSize,
    /// A split along an axis of size 0, a component that the scope doesn't have, or a solid over a size of 0.
    FlatScope,
    /// A part's size, factor or length isn't above 0.
    PartNotPositive,
    /// The parts' own sizes don't fit the size that is split.
    SubdivSum,
    /// One repeat makes too many parts.
    RepeatCount,
    /// All splits together make too many parts.
    TooManyParts,
    /// There are more children than a shape may have.
    TooManyChildren,
}

impl From<ShapeFault> for Stop<ShapeFault> {
    ghost use Rattle.std.specs.Prelude.{◌≡◌};
    ghost use Rattle.cga_fraction.specs.declared.stop.Stop.TheVariants as stop;

    ghost from_gives = { λ f s. s ≡ stop.Fault f };

    fn from(fault: ShapeFault) -> Stop<ShapeFault> {
        Stop::Fault(fault)
    }
}
