use cga_fraction::NoMemory;
use cga_rule::CheckFault;
use cga_word::Name;
use thiserror::Error;

/// Why an edit isn't done. The name is that of the lot, the symbol or the attribute in question.
#[derive(Debug, Drop, Error)]
pub enum EditRefused {
    #[error("no rule has the id")]
    NoRule(u32),
    #[error("the attribute isn't declared")]
    NoAttribute(Name),
    #[error("no rules without parameters have the symbol")]
    NoSymbol(Name),
    #[error("no lot has the name")]
    NoLot(Name),
    #[error("the lot has no extent, or leaves the range")]
    BadLot(Name),
    #[error("there are too many lots")]
    TooManyLots,
    #[error("the grammar isn't valid")]
    Check(CheckFault),
    #[error("the city has too many shapes")]
    OverBudget,
    #[error("memory is wanting")]
    NoMemory,
}

impl From<NoMemory> for EditRefused {
    ghost use Rattle.std.specs.Prelude.{◌≡◌};
    ghost use Rattle.cga_shape.specs.declared.edit_refused.EditRefused.TheVariants as refused;

    ghost from_gives = { λ _ r. r ≡ refused.NoMemory };

    fn from(_none: NoMemory) -> EditRefused {
        EditRefused::NoMemory
    }
}
