//! Parts that the lines of several forms have.
ghost use Rattle.std.specs.Prelude.{◌≡◌};
ghost use Rattle.cga_form.specs.Cursor.{input_of, Finds};
ghost use Rattle.cga_form.specs.Parts as spec;

use crate::fault::Fault;
use crate::tokens::Tokens;
use crate::{numbers, words};
use cga_syntax::limits::LAST_ID;
use cga_word::Name;

/// A word that isn't reserved.
pub fn name(tokens: &mut Tokens<'_>) -> Result<Name, Fault>
    ensures { Finds (spec.name (input_of tokens.old)) result (input_of tokens.new) }
{
    tokens.take(words::name(tokens.peek()))
}

/// The id of a rule: a whole number, 1 to 999,999.
pub fn id(tokens: &mut Tokens<'_>) -> Result<u32, Fault>
    ensures { Finds (spec.id (input_of tokens.old)) result (input_of tokens.new) }
{
    tokens.take(numbers::whole(tokens.peek(), 1, LAST_ID))
}

/// The seed of a lot: a whole number.
pub fn seed(tokens: &mut Tokens<'_>) -> Result<u64, Fault>
    ensures { Finds (spec.seed (input_of tokens.old)) result (input_of tokens.new) }
{
    tokens.take(numbers::seed(tokens.peek()))
}

/// The priority of a symbol: a whole number, 0 to 65,535.
pub fn prio(tokens: &mut Tokens<'_>) -> Result<u16, Fault>
    ensures { Finds (spec.prio (input_of tokens.old)) result (input_of tokens.new) }
{
    tokens.take(numbers::prio(tokens.peek()))
}

/// The end of the line: no token is left.
#[tactic(auto, unfolding(crate::specs::Parts::finish))]
pub fn finish(tokens: &mut Tokens<'_>) -> Result<(), Fault>
    ensures { Finds (spec.finish (input_of tokens.old)) result (input_of tokens.new) }
{
    match tokens.peek() {
        None => Ok(()),
        Some(_) => Err(tokens.unexpected()),
    }
}

/// A whole number within bounds.
pub fn whole(tokens: &mut Tokens<'_>, low: u32, high: u32) -> Result<u32, Fault>
    ensures { Finds (spec.whole_between low high (input_of tokens.old)) result (input_of tokens.new) }
{
    tokens.take(numbers::whole(tokens.peek(), low, high))
}
