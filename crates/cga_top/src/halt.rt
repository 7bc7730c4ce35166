use cga_fraction::NoMemory;

/// Why a run stops before the script's end.
#[derive(Clone, Copy, Debug, PartialEq, Eq)]
pub enum Halt {
    WriteFault,
    NoMemory,
}

impl From<NoMemory> for Halt {
    ghost use Rattle.std.specs.Prelude.{◌≡◌};
    ghost use Rattle.cga_top.specs.declared.halt.Halt.TheVariants as halt;

    ghost from_gives = { λ _ e. e ≡ halt.NoMemory };

    fn from(_none: NoMemory) -> Halt {
        Halt::NoMemory
    }
}
