ghost use Rattle.cga_expand.specs.Derivation.{NamesDiffer};
ghost use Rattle.cga_expand.specs.Validity.{RootsExist};
ghost use Rattle.cga_update.specs.ChangedLots.{AreChanged, AreChanged-prop};

use crate::changed_lots::ChangedLots;
use cga_shape::Sources;

/// From which sources to which, which lots differ, and how many shapes the new ones may come to.
#[derive(Clone, Copy)]
pub struct Renewal<'a> {
    pub old: &'a Sources,
    pub new: &'a Sources,
    pub changed: ChangedLots,
    pub budget: u32,
    ghost old_names: { NamesDiffer old.now.lots },
    ghost names: { NamesDiffer new.now.lots },
    ghost roots: { RootsExist new.now.lots },
    ghost told: { AreChanged changed old.now new.now } by { AreChanged-prop changed old.now new.now old_names names },
}
