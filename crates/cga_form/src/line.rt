ghost use Rattle.std.specs.Prelude.{◌≡◌, ◌≤◌, length, map, IfOk};
ghost use Rattle.cga_form.specs.Tells.{Tells};
ghost use Rattle.cga_form.specs.Cursor.{input_of, Reads, seen};
ghost use Rattle.cga_form.specs.LineTells.{LineTells};
ghost use Rattle.cga_form.specs.Parts.{complete};
ghost use Rattle.cga_form.specs.Limits.{most_open};

use crate::fault::Fault;
use crate::form::Form;
use crate::limits::{LINE_LIMIT, MOST_OPEN};
use crate::line_fault::LineFault;
use crate::parts::finish;
use crate::place::{at_place, of_lexer};
use crate::tokens::Tokens;
use cga_fraction::{NoMemory, Stop, settled};
use cga_lexer::{Token, tokens};
use std::alloc::Global;

/// A member and then the end of the line.
fn complete<F: Form>(alloc: Global, tokens: &mut Tokens<'_>) -> Result<F::Member, Stop<Fault>>
    ensures { Reads (complete (F.reader most_open) (input_of tokens.old)) result (input_of tokens.new) }
{
    let member = F::read(alloc, tokens, MOST_OPEN)?;
    finish(tokens)?;
    Ok(member)
}

/// The member that the tokens spell, or the fault of the first token with which they spell none. At
/// most 32 brackets may be open.
pub fn read_tokens<F: Form>(
    alloc: Global,
    tokens: &[Token],
) -> Result<Result<F::Member, Fault>, NoMemory>
    requires { length tokens.now ≤ 65535 }
    ensures { IfOk result (λ found. Tells F.pieces most_open (map seen tokens.now) found) }
{
    F::is_form();
    let mut left = Tokens::of(tokens);
    settled(complete::<F>(alloc, &mut left))
}

/// The member that a line spells, or its first fault: that it is too long, then the first of its
/// bytes, then the first of its tokens. At most 32 brackets may be open. The line is read once.
#[tactic(auto, using(crate::proofs::Spans::few_tokens))]
pub fn read_line<F: Form>(
    alloc: Global,
    line: &[u8],
) -> Result<Result<F::Member, LineFault>, NoMemory>
    ensures { IfOk result (λ found. LineTells F.pieces line.now found) }
{
    if line.len() > LINE_LIMIT {
        return Ok(Err(LineFault::LineTooLong));
    }
    let found = match tokens(alloc, line)? {
        Ok(found) => found,
        Err(fault) => return Ok(Err(of_lexer(fault))),
    };
    match read_tokens::<F>(alloc, found.as_slice())? {
        Ok(member) => Ok(Ok(member)),
        Err(fault) => {
            let end = line.len() as u32 + 1;
            Ok(Err(at_place(fault, end, found.as_slice())))
        }
    }
}
