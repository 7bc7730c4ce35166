//! Where the faults of a line are. Places count from 1.
ghost use Rattle.std.specs.Prelude.{◌≡◌};
ghost use Rattle.cga_form.specs.LineTells.{lexed, placed, token_place};

use crate::fault::Fault;
use crate::line_fault::LineFault;
use cga_lexer::{LexFault, Token};

/// A fault of the bytes of a line.
pub fn of_lexer(fault: LexFault) -> LineFault
    ensures { result ≡ lexed fault }
{
    match fault {
        LexFault::BadByte(place) => LineFault::BadByte(place),
        LexFault::BadNumber(place) => LineFault::BadNumber(place),
        LexFault::LongName(place) => LineFault::LongName(place),
        LexFault::OpenText(place) => LineFault::OpenText(place),
    }
}

/// A fault of the tokens of a line, at its place. `end` is the place after the last byte.
pub fn at_place(fault: Fault, end: u32, tokens: &[Token]) -> LineFault
    ensures { result ≡ placed end tokens.now fault }
{
    match fault {
        Fault::Unexpected(left) => LineFault::Unexpected(place(end, tokens, left)),
        Fault::TooNested(left) => LineFault::TooNested(place(end, tokens, left)),
    }
}

/// The place of the first of the last so many tokens, or the end of the line.
fn place(end: u32, tokens: &[Token], left: usize) -> u32
    ensures { result ≡ token_place end tokens.now left }
{
    match tokens.get(tokens.len().saturating_sub(left)) {
        Some(token) => token.from,
        None => end,
    }
}
