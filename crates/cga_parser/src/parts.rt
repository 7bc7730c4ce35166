//! What items have in round brackets.
ghost use Rattle.std.specs.Prelude.{◌≡◌, ◌<◌, []};
ghost use Rattle.cga_form.specs.Cursor.{input_of, Finds, Reads};
ghost use Rattle.cga_form.specs.Reader.{begins, many, many_from};
ghost use Rattle.cga_form.specs.Tokens.{is_sign};
ghost use Rattle.cga_lexer.specs.declared.sign.Sign.TheVariants as sign;
ghost use Rattle.cga_syntax.specs.Limits.{most_further};
ghost use Rattle.cga_parser.specs.Grammar as spec;
ghost use Rattle.cga_form.specs.Words.{is_relative};

use crate::expr::{inside, inside_boxed};
use crate::first::{closed, ended};
use crate::members::{all_of, few_of};
use cga_form::fault::Fault;
use cga_form::heads::SelectorHead;
use cga_form::tokens::Tokens;
use cga_form::{numbers, texts};
use cga_fraction::{Boxed, List, Stop};
use cga_lexer::Sign;
use cga_syntax::limits::MOST_FURTHER;
use cga_syntax::{Expr, Size};
use cga_word::{Axis, Primitive, Selector, Turn};
use std::alloc::Global;

fn begins_relative(tokens: &Tokens<'_>) -> bool
    ensures { result ≡ begins is_relative (input_of tokens.now).left }
{
    numbers::relative(tokens.peek()).is_some()
}

#[tactic(auto, unfolding(crate::specs::Grammar::size))]
pub(crate) fn size(alloc: Global, tokens: &mut Tokens<'_>, depth: u8) -> Result<Size, Stop<Fault>>
    requires { 0 < depth }
    ensures { Reads (spec.size depth (spec.inside_of depth) (input_of tokens.old)) result (input_of tokens.new) }
{
    if begins_relative(tokens) {
        let factor = tokens.take(numbers::relative(tokens.peek()))?;
        return Ok(Size::Relative(factor));
    }
    Ok(Size::Absolute(inside(alloc, tokens, depth)?))
}

#[tactic(auto, unfolding(crate::specs::Grammar::minus_ninety))]
fn minus_ninety(tokens: &mut Tokens<'_>) -> Result<(), Fault>
    ensures { Finds (spec.minus_ninety (input_of tokens.old)) result (input_of tokens.new) }
{
    tokens.sign(Sign::Minus)?;
    tokens.take(numbers::ninety(tokens.peek()))
}

#[tactic(auto, unfolding(crate::specs::Grammar::quarter_turn))]
fn quarter_turn(tokens: &mut Tokens<'_>) -> Result<Turn, Fault>
    ensures { Finds (spec.quarter_turn (input_of tokens.old)) result (input_of tokens.new) }
{
    if tokens.at_sign(Sign::Minus) {
        minus_ninety(tokens)?;
        return Ok(Turn::By270);
    }
    tokens.take(numbers::turn(tokens.peek()))
}

#[tactic(auto, unfolding(crate::specs::Grammar::turn_part))]
pub(crate) fn turn_part(tokens: &mut Tokens<'_>, depth: u8) -> Result<Turn, Fault>
    ensures { Finds (spec.turn_part depth (spec.inside_of depth) (input_of tokens.old)) result (input_of tokens.new) }
{
    tokens.enter(Sign::LeftRound, depth)?;
    let by = quarter_turn(tokens)?;
    tokens.sign(Sign::RightRound)?;
    Ok(by)
}

#[tactic(auto, unfolding(crate::specs::Grammar::solid_part))]
pub(crate) fn solid_part(tokens: &mut Tokens<'_>, depth: u8) -> Result<Primitive, Fault>
    ensures { Finds (spec.solid_part depth (spec.inside_of depth) (input_of tokens.old)) result (input_of tokens.new) }
{
    tokens.enter(Sign::LeftRound, depth)?;
    let solid = tokens.take(texts::solid(tokens.peek()))?;
    tokens.sign(Sign::RightRound)?;
    Ok(solid)
}

#[tactic(auto, unfolding(crate::specs::Grammar::further_size))]
fn further_size(alloc: Global, tokens: &mut Tokens<'_>, depth: u8) -> Result<Size, Stop<Fault>>
    requires { 0 < depth }
    ensures { Reads (spec.further_size depth (spec.inside_of depth) (input_of tokens.old)) result (input_of tokens.new) }
{
    tokens.sign(Sign::Comma)?;
    size(alloc, tokens, depth)
}

fn further_sizes(
    alloc: Global,
    tokens: &mut Tokens<'_>,
    depth: u8,
) -> Result<List<Size>, Stop<Fault>>
    requires { 0 < depth }
    ensures { Reads (many (is_sign sign.Comma) (spec.further_size depth (spec.inside_of depth)) (input_of tokens.old)) result (input_of tokens.new) }
{
    all_of(
        alloc,
        tokens,
        |rest| rest.at_sign(Sign::Comma),
        |rest| further_size(alloc, rest, depth),
    )
}

#[tactic(auto, unfolding(crate::specs::Grammar::split_parts))]
pub(crate) fn split_parts(
    alloc: Global,
    tokens: &mut Tokens<'_>,
    depth: u8,
) -> Result<(Axis, List<Size>), Stop<Fault>>
    ensures { Reads (spec.split_parts depth (spec.inside_of depth) (input_of tokens.old)) result (input_of tokens.new) }
{
    tokens.enter(Sign::LeftRound, depth)?;
    let axis = tokens.take(texts::axis(tokens.peek()))?;
    let first = further_size(alloc, tokens, depth)?;
    let rest = further_sizes(alloc, tokens, depth);
    let sizes = closed(tokens, Sign::RightRound, first, rest)?;
    Ok((axis, sizes))
}

#[tactic(auto, unfolding(crate::specs::Grammar::repeat_parts))]
pub(crate) fn repeat_parts(
    alloc: Global,
    tokens: &mut Tokens<'_>,
    depth: u8,
) -> Result<(Axis, Boxed<Expr>), Stop<Fault>>
    ensures { Reads (spec.repeat_parts depth (spec.inside_of depth) (input_of tokens.old)) result (input_of tokens.new) }
{
    tokens.enter(Sign::LeftRound, depth)?;
    let axis = tokens.take(texts::axis(tokens.peek()))?;
    tokens.sign(Sign::Comma)?;
    let length = inside_boxed(alloc, tokens, depth);
    let length = ended(tokens, length, Sign::RightRound)?;
    Ok((axis, length))
}

fn selector_rest(tokens: &mut Tokens<'_>, head: SelectorHead) -> Result<Selector, Fault>
    ensures { Finds (spec.selector_rest head (input_of tokens.old)) result (input_of tokens.new) }
{
    match head {
        SelectorHead::Faces => Ok(Selector::Faces),
        SelectorHead::Sidefaces => Ok(Selector::Sidefaces),
        SelectorHead::Face => {
            tokens.sign(Sign::Comma)?;
            let side = tokens.take(texts::side(tokens.peek()))?;
            Ok(Selector::Face(side))
        }
        SelectorHead::Edges => Ok(Selector::Edges),
        SelectorHead::Edge => {
            tokens.sign(Sign::Comma)?;
            let number = tokens.take(numbers::edge(tokens.peek()))?;
            Ok(Selector::Edge(number))
        }
        SelectorHead::Vertices => Ok(Selector::Vertices),
    }
}

#[tactic(auto, unfolding(crate::specs::Grammar::selector))]
fn selector(tokens: &mut Tokens<'_>) -> Result<Selector, Fault>
    ensures { Finds (spec.selector (input_of tokens.old)) result (input_of tokens.new) }
{
    let head = tokens.take(texts::selector(tokens.peek()))?;
    selector_rest(tokens, head)
}

#[tactic(auto, unfolding(crate::specs::Grammar::selector_part))]
pub(crate) fn selector_part(tokens: &mut Tokens<'_>, depth: u8) -> Result<Selector, Fault>
    ensures { Finds (spec.selector_part depth (spec.inside_of depth) (input_of tokens.old)) result (input_of tokens.new) }
{
    tokens.enter(Sign::LeftRound, depth)?;
    let selector = selector(tokens)?;
    tokens.sign(Sign::RightRound)?;
    Ok(selector)
}

/// At most three arguments after the first.
#[tactic(auto, unfolding(crate::specs::Grammar::further_argument))]
fn further_arguments(
    alloc: Global,
    tokens: &mut Tokens<'_>,
    depth: u8,
) -> Result<List<Expr>, Stop<Fault>>
    requires { 0 < depth }
    ensures { Reads (many_from (is_sign sign.Comma) (spec.further_argument depth (spec.inside_of depth)) most_further [] (input_of tokens.old)) result (input_of tokens.new) }
{
    few_of(
        alloc,
        tokens,
        MOST_FURTHER,
        |rest| rest.at_sign(Sign::Comma),
        |rest: &mut Tokens<'_>|
            requires { 0 < depth }
            ensures { Reads (spec.further_argument depth (spec.inside_of depth) (input_of rest.old)) result (input_of rest.new) }
        {
            rest.sign(Sign::Comma)?;
            inside(alloc, rest, depth)
        },
    )
}

#[tactic(auto, unfolding(crate::specs::Grammar::some_arguments))]
fn some_arguments(
    alloc: Global,
    tokens: &mut Tokens<'_>,
    depth: u8,
) -> Result<List<Expr>, Stop<Fault>>
    ensures { Reads (spec.some_arguments depth (spec.inside_of depth) (input_of tokens.old)) result (input_of tokens.new) }
{
    tokens.enter(Sign::LeftRound, depth)?;
    let first = inside(alloc, tokens, depth)?;
    let rest = further_arguments(alloc, tokens, depth);
    closed(tokens, Sign::RightRound, first, rest)
}

#[tactic(auto, unfolding(crate::specs::Grammar::arguments))]
pub(crate) fn arguments(
    alloc: Global,
    tokens: &mut Tokens<'_>,
    depth: u8,
) -> Result<List<Expr>, Stop<Fault>>
    ensures { Reads (spec.arguments depth (spec.inside_of depth) (input_of tokens.old)) result (input_of tokens.new) }
{
    if tokens.at_sign(Sign::LeftRound) {
        return some_arguments(alloc, tokens, depth);
    }
    Ok(List::new(alloc))
}
