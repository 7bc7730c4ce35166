ghost use Rattle.std.specs.Prelude.{◌≡◌, IfOk};

use crate::cond::Cond;
use crate::item::Item;
use cga_fraction::{Fraction, List, NoMemory, Shared, SharedBox};
use cga_word::Name;

/// A rule: the shapes of a symbol, where the condition holds, are replaced by an alternative. Equal rules may share
/// their parts.
#[derive(Drop, PartialEq, Eq)]
pub struct Rule {
    pub id: u32,
    pub symbol: Name,
    pub params: Shared<Name>,
    pub cond: Option<SharedBox<Cond>>,
    pub alternatives: Shared<Alternative>,
}

/// A successor with its probability. It is `NIL` where it has no items.
#[derive(Drop)]
#[derive_where(PartialEq, Eq)]
pub struct Alternative {
    pub items: List<Item>,
    pub prob: Fraction,
}

impl Rule {
    /// An equal rule, which shares the parts of this one. Takes no memory: NoMemory comes where their owners can't be
    /// counted any more.
    pub fn copy(&self) -> Result<Rule, NoMemory>
        ensures { IfOk result (λ copy. copy ≡ self.now) }
    {
        let params = self.params.share()?;
        let cond = share_condition(&self.cond)?;
        let alternatives = self.alternatives.share()?;
        Ok(Rule {
            id: self.id,
            symbol: self.symbol,
            params,
            cond,
            alternatives,
        })
    }
}

fn share_condition(cond: &Option<SharedBox<Cond>>) -> Result<Option<SharedBox<Cond>>, NoMemory>
    ensures { IfOk result (λ copy. copy ≡ cond.now) }
{
    match cond {
        None => Ok(None),
        Some(cond) => Ok(Some(cond.share()?)),
    }
}
