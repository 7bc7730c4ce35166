//! The tokens of one line, or its first fault by place.
//!
//! It must not know which words are reserved.
//!
//! What callers get wrong: the places. They count from 1, and `to` is the place behind the token.
#![tactic(auto)]

ghost use Rattle.std.specs.Prelude.{◌≡◌, ◌+◌, ◌<◌, ◌^◌, length, IfOk};
ghost use Rattle.cga_lexer.specs.Line.{tokens_of, Rise};

mod bytes;
pub mod fault;
pub mod front;
mod laws;
mod number;
pub mod sign;
pub mod token;

use cga_fraction::{List, NoMemory};
pub use fault::LexFault;
use front::{Front, look_at};
pub use laws::numbers_have_values;
pub use sign::Sign;
use std::alloc::Global;
pub use token::{Token, TokenKind};

/// The tokens of a line, or its first fault. A comment and blanks are none. The line is read once,
/// and only the list takes memory.
pub fn tokens(alloc: Global, line: &[u8]) -> Result<Result<List<Token>, LexFault>, NoMemory>
    requires { length line.now + 1 < 2 ^ 32 }
    ensures exact { IfOk result (λ found. found ≡ tokens_of line.now) }
    ensures spans { IfOk result (λ found. IfOk found (λ ts. Rise 1 ts (length line.now + 1))) }
{
    let mut found = List::new(alloc);
    let mut at = 0;
    'line: while at < line.len() {
        let place = (at + 1) as u32;
        match look_at(line.split_at(at).1) {
            Front::End => return Ok(Ok(found)),
            Front::Blank => at += 1,
            Front::Token(kind, len) => {
                let to = place + len as u32;
                found.push(Token {
                    kind,
                    from: place,
                    to,
                })?;
                at += len;
            }
            Front::BadByte(n) => return Ok(Err(LexFault::BadByte(place + n as u32))),
            Front::BadNumber => return Ok(Err(LexFault::BadNumber(place))),
            Front::LongName(n) => return Ok(Err(LexFault::LongName(place + n as u32))),
            Front::OpenText => return Ok(Err(LexFault::OpenText(place))),
        }
    }
    Ok(Ok(found))
}
