use crate::lots::Lots;
use cga_fraction::NoMemory;
use cga_rule::Grammar;
use cga_word::Mode;
use std::alloc::Global;

/// All that a city comes of. Lots stand in the order in which their names were added. Nothing says
/// that the grammar is valid, or that lots differ. Sources may share their rules and their lots with others.
#[derive(Drop)]
pub struct Sources {
    pub grammar: Grammar,
    pub lots: Lots,
    pub mode: Mode,
}

impl Sources {
    ghost use Rattle.std.specs.Prelude.{◌≡◌, IfOk};

    /// Equal sources, which share the rules and the lots. Takes memory for the attributes alone.
    pub fn copy(&self, alloc: Global) -> Result<Sources, NoMemory>
        ensures { IfOk result (λ copy. copy ≡ self.now) }
    {
        let grammar = self.grammar.copy(alloc)?;
        Ok(Sources {
            grammar,
            lots: self.lots.share()?,
            mode: self.mode,
        })
    }
}
