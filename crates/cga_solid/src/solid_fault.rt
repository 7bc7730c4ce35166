use cga_fraction::Stop;

/// Why a solid can't be drawn into a scope.
#[derive(Clone, Copy, Debug, PartialEq, Eq)]
pub enum SolidFault {
    /// A size that the solid needs is 0.
    FlatScope,
    /// Half of a size, or a coordinate, leaves the range.
    Overflow,
}

impl From<SolidFault> for Stop<SolidFault> {
    ghost use Rattle.std.specs.Prelude.{◌≡◌};
    ghost use Rattle.cga_fraction.specs.declared.stop.Stop.TheVariants as stop;

    ghost from_gives = { λ f s. s ≡ stop.Fault f };

    fn from(fault: SolidFault) -> Stop<SolidFault> {
        Stop::Fault(fault)
    }
}
