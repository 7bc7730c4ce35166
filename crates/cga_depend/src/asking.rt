//! The nodes of symbols whose rules ask.
ghost use Rattle.std.specs.Prelude.{◌≡◌, ℕ, List, Some, true, IfOk, slice_get};
ghost use Rattle.cga_depend.specs.Asking.{asks_in};

use crate::dependents::Dependents;
use cga_check::Symbols;
use cga_fraction::NoMemory;
use cga_index::NodeId;
use cga_word::Name;

/// Whether a symbol's rules ask in one of two grammars. Takes memory where the symbol comes for the first time.
fn asks(before: &mut Symbols, after: &mut Symbols, symbol: Name) -> Result<bool, NoMemory>
    ensures value { IfOk result (λ asks. asks ≡ asks_in before.old after.old symbol) }
    ensures before { before.new ≡ before.old }
    ensures after { after.new ≡ after.old }
{
    let was = before.of(symbol)?;
    let is = after.of(symbol)?;
    Ok(was.asks() || is.asks())
}

/// The nodes of one of the symbols, if its rules ask in one of the grammars, or else none. Takes memory.
pub fn asking_nodes<'a>(
    dependents: &'a Dependents,
    place: usize,
    before: &mut Symbols,
    after: &mut Symbols,
) -> Result<&'a [NodeId], NoMemory>
    ensures nodes { IfOk result (λ nodes. (e : List ℕ × List ℕ) → slice_get dependents.now.nodes place ≡ Some e → asks_in before.old after.old e.0 ≡ true → nodes.now ≡ e.1) }
    ensures before { before.new ≡ before.old }
    ensures after { after.new ≡ after.old }
{
    match dependents.entry(place) {
        Some((symbol, nodes)) => {
            if asks(before, after, symbol)? {
                Ok(nodes)
            } else {
                Ok(&[])
            }
        }
        None => Ok(&[]),
    }
}
