//! Lines that are told by their few words.
ghost use Rattle.std.specs.Prelude.{◌≡◌, ◌↔◌, ◌≤◌, ◌==◌, ◌||◌, IfOk, IsTrue, Ok};
ghost use Rattle.cga_form.specs.Tokens.{is_word};
ghost use Rattle.cga_lexer.specs.Line.{tokens_of};
ghost use Rattle.cga_parser.specs.BlockTells.{EndsBlock};
ghost use Rattle.cga_script.specs.Ends as spec;
ghost use Rattle.cga_syntax.specs.Lexemes.{lexeme_of};

use cga_form::limits::LINE_LIMIT;
use cga_form::{numbers, words};
use cga_fraction::NoMemory;
use cga_lexer::front::{Front, look_at};
use cga_lexer::{Token, TokenKind, tokens};
use cga_syntax::Lexeme;
use std::alloc::Global;

fn is_word(kind: TokenKind, bytes: &[u8]) -> bool
    ensures { result ≡ is_word bytes.now (lexeme_of kind) }
{
    words::word(Some(Lexeme::of(kind)), bytes).is_some()
}

fn is_two(kind: TokenKind) -> bool
    ensures { result ≡ spec.is_two (lexeme_of kind) }
{
    numbers::whole(Some(Lexeme::of(kind)), 2, 2).is_some()
}

fn are_version(tokens: &[Token]) -> bool
    ensures { result ≡ spec.are_version (Ok tokens.now) }
{
    match tokens {
        [first, second] => is_word(first.kind, b"version") && is_two(second.kind),
        _ => false,
    }
}

/// Whether the line makes a script one of version 2, where it is the first that isn't blank: it has
/// just the word `version` and a number of value 2, as `2.0`. A long line doesn't. Takes memory.
pub fn version_line(alloc: Global, line: &[u8], long: bool) -> Result<bool, NoMemory>
    ensures { IfOk result (λ told. told ≡ spec.is_version_line (record { bytes = line.now; long = long })) }
{
    if long || line.len() > LINE_LIMIT {
        return Ok(false);
    }
    match tokens(alloc, line)? {
        Ok(found) => Ok(are_version(found.as_slice())),
        Err(_) => Ok(false),
    }
}

// Whether the tokens of a line are just the word `end`.
fn are_end(line: &[u8]) -> bool
    ensures { result ≡ spec.are_end (tokens_of line.now) }
{
    let mut at = 0;
    let mut found = false;
    'line: while at < line.len() {
        match look_at(line.split_at(at).1) {
            Front::End => return found,
            Front::Blank => at += 1,
            Front::Token(kind, len) => {
                if found {
                    return false;
                }
                if !is_word(kind, b"end") {
                    return false;
                }
                found = true;
                at += len;
            }
            Front::BadByte(_) => return false,
            Front::BadNumber => return false,
            Front::LongName(_) => return false,
            Front::OpenText => return false,
        }
    }
    found
}

/// Whether the line ends a block. A long line doesn't, nor does one with a further token. Takes no
/// memory.
pub fn ends_block(line: &[u8], long: bool) -> bool
    ensures exact { result ≡ spec.is_end_line (record { bytes = line.now; long = long }) }
    ensures ends { IsTrue result ↔ EndsBlock (record { bytes = line.now; long = long }) }
{
    !long && line.len() <= LINE_LIMIT && are_end(line)
}

fn is_space(byte: u8) -> bool
    ensures { result ≡ (byte == 32 || byte == 9) }
{
    byte == b' ' || byte == b'\t'
}

/// Whether a line has no tokens: it is blanks, or blanks and a comment. Takes no memory.
pub fn is_blank(line: &[u8]) -> bool
    ensures { result ≡ spec.are_none (tokens_of line.now) }
{
    for byte in line {
        if *byte == b'#' {
            return true;
        }
        if !is_space(*byte) {
            return false;
        }
    }
    true
}
