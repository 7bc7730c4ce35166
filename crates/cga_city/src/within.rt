ghost use Rattle.std.specs.Prelude.{◌≡◌, IfOk, Ok};
ghost use Rattle.cga_update.specs.Updates.{WhereOver};

use cga_fraction::NoMemory;
use cga_update::UpdateRefused;

/// What an update answers whose new sources are within the budget.
pub(crate) fn within_budget(told: Result<u64, UpdateRefused>) -> Result<u64, NoMemory>
    requires within { WhereOver told ⊥ }
    ensures same { IfOk result (λ count. told ≡ Ok count) }
{
    match told {
        Ok(count) => Ok(count),
        Err(UpdateRefused::NoMemory) => Err(NoMemory),
        Err(UpdateRefused::OverBudget) => unreachable!(),
    }
}
