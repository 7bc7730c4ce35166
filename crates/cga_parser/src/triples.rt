//! Three expressions or sizes in round brackets.
ghost use Rattle.std.specs.Prelude.{◌≡◌, ◌<◌};
ghost use Rattle.cga_form.specs.Cursor.{input_of, Reads};
ghost use Rattle.cga_parser.specs.Grammar as spec;
ghost use Rattle.cga_parser.specs.Portions as portions;

use crate::expr::inside_boxed;
use crate::first::{both, boxed, ended};
use crate::parts::size;
use cga_form::fault::Fault;
use cga_form::heads::ItemHead;
use cga_form::tokens::Tokens;
use cga_fraction::{Boxed, Stop};
use cga_lexer::Sign;
use cga_syntax::{Expr, Item, Size};
use std::alloc::Global;

/// An expression and the sign after it.
fn expr_until(
    alloc: Global,
    tokens: &mut Tokens<'_>,
    depth: u8,
    end: Sign,
) -> Result<Boxed<Expr>, Stop<Fault>>
    requires { 0 < depth }
    ensures { Reads (portions.until (spec.inside_of depth) end (input_of tokens.old)) result (input_of tokens.new) }
{
    let expr = inside_boxed(alloc, tokens, depth);
    ended(tokens, expr, end)
}

/// A size and the sign after it.
fn size_until(
    alloc: Global,
    tokens: &mut Tokens<'_>,
    depth: u8,
    end: Sign,
) -> Result<Boxed<Size>, Stop<Fault>>
    requires { 0 < depth }
    ensures { Reads (portions.until (spec.size depth (spec.inside_of depth)) end (input_of tokens.old)) result (input_of tokens.new) }
{
    let size = boxed(alloc, size(alloc, tokens, depth));
    ended(tokens, size, end)
}

/// What stands after the word of a move.
pub(crate) fn move_rest(
    alloc: Global,
    tokens: &mut Tokens<'_>,
    depth: u8,
) -> Result<Item, Stop<Fault>>
    ensures { Reads (spec.item_rest depth (spec.inside_of depth) (spec.inner_item depth) ItemHead.Move (input_of tokens.old)) result (input_of tokens.new) }
{
    tokens.enter(Sign::LeftRound, depth)?;
    let x = expr_until(alloc, tokens, depth, Sign::Comma)?;
    let (x, y) = both(x, expr_until(alloc, tokens, depth, Sign::Comma))?;
    let ((x, y), z) = both((x, y), expr_until(alloc, tokens, depth, Sign::RightRound))?;
    Ok(Item::Move(x, y, z))
}

/// What stands after the word of a resize.
pub(crate) fn resize_rest(
    alloc: Global,
    tokens: &mut Tokens<'_>,
    depth: u8,
) -> Result<Item, Stop<Fault>>
    ensures { Reads (spec.item_rest depth (spec.inside_of depth) (spec.inner_item depth) ItemHead.Resize (input_of tokens.old)) result (input_of tokens.new) }
{
    tokens.enter(Sign::LeftRound, depth)?;
    let x = size_until(alloc, tokens, depth, Sign::Comma)?;
    let (x, y) = both(x, size_until(alloc, tokens, depth, Sign::Comma))?;
    let ((x, y), z) = both((x, y), size_until(alloc, tokens, depth, Sign::RightRound))?;
    Ok(Item::Resize(x, y, z))
}
