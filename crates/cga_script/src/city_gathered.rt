ghost use Rattle.std.specs.Prelude.{◌≡◌, ◌++◌, ◌∷◌, [], List, Option, IfOk, OnOk};
ghost use Rattle.cga_form.specs.Cursor.{input_of, Reads};
ghost use Rattle.cga_script.specs.CityLines as spec;
ghost use Rattle.cga_script.specs.CityLines.{Adds, Holds, kept_of};
ghost use Rattle.cga_script.specs.declared.city_line.CityLine.{CityLine};

use crate::city_line::CityLine;
use crate::command_form::order;
use crate::lot_form::lot;
use crate::named_lots::NamedLots;
use cga_form::fault::Fault;
use cga_form::tokens::Tokens;
use cga_form::{BlockReader, Form, Gather};
use cga_fraction::{NoMemory, Stop};
use cga_parser::Gathered;
use cga_parser::block::block;
use cga_shape::{Lots, Sources};
use cga_word::Mode;
use std::alloc::Global;

/// What the lines of a block of a whole city said so far, as much as is kept.
#[derive(Drop)]
pub struct CityGathered {
    rules: Gathered,
    lots: NamedLots,
    mode: Mode,
}

impl CityGathered {
    #[tactic(auto, unfolding(crate::specs::CityLines::lots_after, crate::specs::CityLines::mode_after))]
    fn take(&mut self, said: Option<CityLine>) -> Result<(), NoMemory>
        ensures { OnOk result (Adds self.old said self.new) }
    {
        match said {
            Some(CityLine::Block(line)) => return self.rules.add(Some(line)),
            Some(CityLine::Order(mode)) => self.mode = mode,
            Some(CityLine::Lot(lot)) => self.lots.set(lot)?,
            None => {}
        }
        self.rules.add(None)
    }
}

impl Form for CityGathered {
    type Member = CityLine;

    ghost pieces = { spec.city_pieces };

    ghost reader = { spec.city };

    #[tactic(auto, unfolding(crate::specs::CityLines::city))]
    fn read(alloc: Global, tokens: &mut Tokens<'_>, depth: u8) -> Result<CityLine, Stop<Fault>> {
        if tokens.at_word(b"lot") {
            return Ok(CityLine::Lot(lot(tokens)?));
        }
        if tokens.at_word(b"order") {
            return Ok(CityLine::Order(order(tokens)?));
        }
        Ok(CityLine::Block(block(alloc, tokens, depth)?))
    }

    #[tactic(auto, using(crate::proofs::CityForm::city_form))]
    fn is_form() {}
}

impl Gather for CityGathered {
    type All = Sources;

    ghost holds = { Holds };

    ghost says = { kept_of };

    #[tactic(auto, unfolding(crate::specs::CityLines::lots_after, crate::specs::CityLines::mode_after))]
    fn empty(alloc: Global) -> CityGathered
        ensures { Holds result [] }
    {
        CityGathered {
            rules: Gathered::empty(alloc),
            lots: NamedLots::new(alloc),
            mode: Mode::Breadth,
        }
    }

    #[tactic(auto, using(crate::proofs::CityAdditions::holds_more))]
    fn add(&mut self, said: Option<CityLine>) -> Result<(), NoMemory>
        ensures { (all : List (Option CityLine)) → Holds self.old all → OnOk result (Holds self.new (all ++ said ∷ [])) }
    {
        self.take(said)
    }

    fn finish(self, alloc: Global) -> Result<Sources, NoMemory>
        ensures { (all : List (Option CityLine)) → Holds self all → IfOk result (λ sources. sources ≡ kept_of all) }
    {
        let grammar = self.rules.finish(alloc)?;
        let lots = Lots::from_vec(alloc, self.lots.into_vec())?;
        Ok(Sources {
            grammar,
            lots,
            mode: self.mode,
        })
    }
}

/// Reads the lines of a block of a whole city one after the other: `new` takes none yet, `line` the
/// next one, and `finish` says which sources they are, cut behind the first rule, the first attribute and
/// the first lot that are too many, or which is the first faulty line. A lot whose name came before takes
/// its place; the last order counts, and breadth where there is none.
pub type CityReader = BlockReader<CityGathered>;
