ghost use Rattle.std.specs.Prelude.{◌≡◌};
ghost use Rattle.cga_fraction.specs.declared.stop.Stop.TheVariants as stop;

use cga_fraction::Stop;

/// Why tokens are no member of a form, with the number of tokens that were left.
#[derive(Clone, Copy, PartialEq, Eq)]
pub enum Fault {
    Unexpected(usize),
    TooNested(usize),
}

impl From<Fault> for Stop<Fault> {
    ghost from_gives = { λ f e. e ≡ stop.Fault f };

    fn from(fault: Fault) -> Stop<Fault> {
        Stop::Fault(fault)
    }
}
