ghost use Rattle.std.specs.Prelude.{◌≡◌, ◌≤◌, length, map, IfOk};
ghost use Rattle.cga_form.specs.Cursor.{input_of, Finds, Reads, seen};
ghost use Rattle.cga_form.specs.Tells.{Tells};
ghost use Rattle.cga_parser.specs.Blocks as spec;

use crate::block_line::BlockLine;
use crate::rule::rule;
use cga_form::fault::Fault;
use cga_form::parts::{finish, name, prio};
use cga_form::tokens::Tokens;
use cga_form::value::value;
use cga_fraction::{NoMemory, Stop};
use cga_lexer::{Sign, Token};
use cga_syntax::Attribute;
use std::alloc::Global;

/// A name and its value, after the word `attr`.
#[tactic(auto, unfolding(crate::specs::Blocks::attribute))]
pub fn attribute(tokens: &mut Tokens<'_>) -> Result<Attribute, Fault>
    ensures { Finds (spec.attribute (input_of tokens.old)) result (input_of tokens.new) }
{
    tokens.word(b"attr")?;
    let name = name(tokens)?;
    tokens.sign(Sign::Assign)?;
    let value = value(tokens)?;
    Ok(Attribute { name, value })
}

#[tactic(auto, unfolding(crate::specs::Blocks::priority))]
fn priority(tokens: &mut Tokens<'_>) -> Result<u16, Fault>
    ensures { Finds (spec.priority (input_of tokens.old)) result (input_of tokens.new) }
{
    tokens.word(b"PRIORITY")?;
    let priority = prio(tokens)?;
    tokens.sign(Sign::Colon)?;
    Ok(priority)
}

/// A line of a block, where so many brackets may be opened.
#[tactic(auto, unfolding(crate::specs::Blocks::block))]
pub fn block(alloc: Global, tokens: &mut Tokens<'_>, depth: u8) -> Result<BlockLine, Stop<Fault>>
    ensures { Reads (spec.block depth (input_of tokens.old)) result (input_of tokens.new) }
{
    if tokens.at_word(b"attr") {
        return Ok(BlockLine::Attribute(attribute(tokens)?));
    }
    if tokens.at_word(b"PRIORITY") {
        return Ok(BlockLine::Priority(priority(tokens)?));
    }
    if tokens.at_word(b"end") {
        tokens.word(b"end")?;
        return Ok(BlockLine::End);
    }
    Ok(BlockLine::Rule(rule(alloc, tokens, depth)?))
}
