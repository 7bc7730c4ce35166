use cga_fraction::Stop;

/// Why a scope can't be split so.
#[derive(Clone, Copy, Debug, PartialEq, Eq)]
pub enum SplitFault {
    /// The scope's size along the axis is 0.
    FlatScope,
    /// A size, a factor or a length isn't above 0.
    PartNotPositive,
    /// The lengths don't fit the scope.
    SubdivSum,
    /// More than 10,000 parts.
    RepeatCount,
    /// A number leaves the range.
    Overflow,
}

impl From<SplitFault> for Stop<SplitFault> {
    ghost use Rattle.std.specs.Prelude.{◌≡◌};
    ghost use Rattle.cga_fraction.specs.declared.stop.Stop.TheVariants as stop;

    ghost from_gives = { λ f s. s ≡ stop.Fault f };

    fn from(fault: SplitFault) -> Stop<SplitFault> {
        Stop::Fault(fault)
    }
}
