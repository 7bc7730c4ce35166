use cga_fraction::NoMemory;
use thiserror::Error;

/// Why an update isn't done.
#[derive(Clone, Copy, Debug, PartialEq, Eq, Error)]
pub enum UpdateRefused {
    /// The new derivation comes to more shapes than the budget. All stands as before.
    #[error("the new sources come to too many shapes")]
    OverBudget,
    /// The forest, the dependents and the changes are given up.
    #[error("memory is wanting")]
    NoMemory,
}

impl From<NoMemory> for UpdateRefused {
    ghost use Rattle.std.specs.Prelude.{◌≡◌};
    ghost use Rattle.cga_update.specs.declared.update_refused.UpdateRefused.TheVariants as refused;

    ghost from_gives = { λ _ e. e ≡ refused.NoMemory };

    fn from(_none: NoMemory) -> UpdateRefused {
        UpdateRefused::NoMemory
    }
}
