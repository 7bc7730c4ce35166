ghost use Rattle.std.specs.Prelude.{◌≡◌, IfOk, Result};
ghost use Rattle.cga_fraction.specs.Stops.{Makes, settled_of};

use crate::memory::NoMemory;

/// Why a call stops early that takes memory and can be refused: for its fault, or for want of memory.
#[derive(Clone, Copy, Debug)]
pub enum Stop<F> {
    Fault(F),
    NoMemory,
}

impl<F> From<NoMemory> for Stop<F> {
    ghost use Rattle.std.specs.Prelude.{◌≡◌};
    ghost use Rattle.cga_fraction.specs.declared.stop.Stop.TheVariants as stop;

    ghost from_gives = { λ _ s. s ≡ stop.NoMemory };

    fn from(_none: NoMemory) -> Stop<F> {
        Stop::NoMemory
    }
}

/// What a call answers whose work may have stopped: the fault is an answer, and want of memory is none. Takes no memory.
pub fn settled<A, F>(made: Result<A, Stop<F>>) -> Result<Result<A, F>, NoMemory>
    ensures exact { result ≡ settled_of made }
    ensures made { (r : Result A F) → Makes r made → IfOk result (λ given. given ≡ r) }
{
    match made {
        Ok(value) => Ok(Ok(value)),
        Err(Stop::Fault(fault)) => Ok(Err(fault)),
        Err(Stop::NoMemory) => Err(NoMemory),
    }
}
