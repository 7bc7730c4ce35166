ghost use Rattle.std.specs.Prelude.{◌≤◌, length, IfOk, Ok};
ghost use Rattle.cga_form.specs.BlockTells.{BlockTells, unless_blank};

use crate::form::Form;
use crate::limits::LINE_LIMIT;
use crate::line::read_tokens;
use crate::line_fault::LineFault;
use crate::place::{at_place, of_lexer};
use cga_fraction::NoMemory;
use cga_lexer::{Token, tokens};
use std::alloc::Global;

/// What a line of a block says, or its first fault; None where it is blank. A line that is said to
/// be long, or has more than 4,096 bytes, isn't looked at.
#[tactic(auto, using(crate::proofs::Spans::few_tokens))]
pub fn read_block_line<F: Form>(
    alloc: Global,
    line: &[u8],
    long: bool,
) -> Result<Result<Option<F::Member>, LineFault>, NoMemory>
    ensures { IfOk result (λ found. BlockTells F.pieces (record { bytes = line.now; long = long }) found) }
{
    if long || line.len() > LINE_LIMIT {
        return Ok(Err(LineFault::LineTooLong));
    }
    match tokens(alloc, line)? {
        Ok(found) => of_tokens::<F>(alloc, line.len() as u32 + 1, found.as_slice()),
        Err(fault) => Ok(Err(of_lexer(fault))),
    }
}

fn of_tokens<F: Form>(
    alloc: Global,
    end: u32,
    tokens: &[Token],
) -> Result<Result<Option<F::Member>, LineFault>, NoMemory>
    requires { length tokens.now ≤ 65535 }
    ensures { IfOk result (λ found. unless_blank F.pieces end (Ok tokens.now) found) }
{
    if tokens.is_empty() {
        return Ok(Ok(None));
    }
    match read_tokens::<F>(alloc, tokens)? {
        Ok(said) => Ok(Ok(Some(said))),
        Err(fault) => Ok(Err(at_place(fault, end, tokens))),
    }
}
