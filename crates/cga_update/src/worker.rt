//! An update under way does the turns of an agenda.
use crate::turn::turn;
use crate::work::Work;
use cga_agenda::{Turned, Worker};
use cga_expand::{ExpandKey, Expansions};
use cga_fraction::{NoMemory, Tests};
use std::sync::ledger::Ledger;

impl<'a> Worker for Work<'a> {
    ghost use Rattle.cga_word.specs.declared.answers.Answers.{Answers as Asked};
    ghost use Rattle.cga_word.specs.declared.primitive.Primitive.{Primitive};
    ghost use Rattle.cga_shape.specs.declared.shape.Shape.{Shape as Shaped};
    ghost use Rattle.cga_shape.specs.declared.shape_fault.ShapeFault.{ShapeFault};
    ghost use Rattle.cga_rework.specs.Ranked.{Ranked};
    ghost use Rattle.cga_expand.specs.Settings.{Setting as Set};
    ghost use Rattle.cga_update.specs.Means.{KeepsBounds, Means};
    ghost use Rattle.cga_update.specs.MeansLaws as kept;

    type Key = ExpandKey;

    ghost Shape = { Ranked Shaped };

    ghost Answers = { Asked };

    ghost Setting = { Set };

    ghost Fault = { ShapeFault };

    ghost Solid = { Primitive };

    ghost means = { λ w. Means w };

    ghost keeps = { λ was now. KeepsBounds was now };

    fn turn<E: Ledger, T: Ledger>(
        &mut self,
        expansions: &mut Expansions<E>,
        tests: &mut Tests<T>,
    ) -> Result<Option<Turned>, NoMemory> {
        turn(self, expansions, tests)
    }

    fn count(&self) -> usize {
        self.forest.count()
    }

    ghost keeps_itself = { kept.keeps_itself };

    ghost keeps_on = { kept.keeps_on };
}
