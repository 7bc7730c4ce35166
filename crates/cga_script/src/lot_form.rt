ghost use Rattle.cga_form.specs.Cursor.{input_of, Finds};
ghost use Rattle.cga_script.specs.Lots as spec;

use cga_form::Form;
use cga_form::fault::Fault;
use cga_form::parts::{name, seed};
use cga_form::tokens::Tokens;
use cga_form::value::value;
use cga_fraction::Stop;
use cga_shape::Lot;
use std::alloc::Global;

/// The lot that is written next.
#[tactic(auto, unfolding(crate::specs::Lots::lot))]
pub fn lot(tokens: &mut Tokens<'_>) -> Result<Lot, Fault>
    ensures { Finds (spec.lot (input_of tokens.old)) result (input_of tokens.new) }
{
    tokens.word(b"lot")?;
    Ok(Lot {
        name: name(tokens)?,
        seed: seed(tokens)?,
        x: value(tokens)?,
        z: value(tokens)?,
        width: value(tokens)?,
        depth: value(tokens)?,
        symbol: name(tokens)?,
    })
}

/// The form of a lot's line.
pub struct LotForm;

impl Form for LotForm {
    type Member = Lot;

    ghost pieces = { spec.lot_pieces };

    ghost reader = { λ n. spec.lot };

    fn read(_alloc: Global, tokens: &mut Tokens<'_>, _depth: u8) -> Result<Lot, Stop<Fault>> {
        Ok(lot(tokens)?)
    }

    #[tactic(auto, using(crate::proofs::Lots::lot_form))]
    fn is_form() {}
}
