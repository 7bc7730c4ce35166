ghost use Rattle.std.specs.Prelude.{◌≡◌, ◌<◌};
ghost use Rattle.cga_form.specs.Cursor.{input_of, Reads};
ghost use Rattle.cga_form.specs.Reader.{begins, many};
ghost use Rattle.cga_parser.specs.Gained.{TakesMinus};
ghost use Rattle.cga_parser.specs.Grammar as spec;
ghost use Rattle.cga_parser.specs.Portions as portions;

use crate::first::{both, boxed, ended, fitted};
use crate::members::all_of;
use cga_form::fault::Fault;
use cga_form::heads::PrimaryHead;
use cga_form::tokens::Tokens;
use cga_form::{numbers, words};
use cga_fraction::{Boxed, List, Stop};
use cga_lexer::Sign;
use cga_syntax::limits::MOST_STEPS;
use cga_syntax::{Added, Expr, Factor, Keyword, Primary, Scaled, Term};
use std::alloc::Global;

/// An expression in one more bracket.
#[cycle(expr)]
pub(crate) fn inside(alloc: Global, tokens: &mut Tokens<'_>, depth: u8) -> Result<Expr, Stop<Fault>>
    requires { 0 < depth }
    ensures { Reads (spec.inside_of depth (input_of tokens.old)) result (input_of tokens.new) }
{
    expr(alloc, tokens, depth - 1)
}

/// An expression in one more bracket, in a box.
#[cycle(expr)]
pub(crate) fn inside_boxed(
    alloc: Global,
    tokens: &mut Tokens<'_>,
    depth: u8,
) -> Result<Boxed<Expr>, Stop<Fault>>
    requires { 0 < depth }
    ensures { Reads (spec.inside_of depth (input_of tokens.old)) result (input_of tokens.new) }
{
    boxed(alloc, inside(alloc, tokens, depth))
}

#[cycle(expr)]
#[tactic(auto, unfolding(crate::specs::Grammar::group))]
fn group(alloc: Global, tokens: &mut Tokens<'_>, depth: u8) -> Result<Boxed<Expr>, Stop<Fault>>
    ensures { Reads (spec.group depth (spec.inside_of depth) (input_of tokens.old)) result (input_of tokens.new) }
{
    tokens.enter(Sign::LeftRound, depth)?;
    let expr = inside_boxed(alloc, tokens, depth);
    ended(tokens, expr, Sign::RightRound)
}

/// The number of steps of a rand, and the bracket behind it.
fn rand_steps(tokens: &mut Tokens<'_>) -> Result<u32, Stop<Fault>>
    ensures { Reads (portions.rand_steps (input_of tokens.old)) result (input_of tokens.new) }
{
    tokens.sign(Sign::Comma)?;
    let steps = tokens.take(numbers::whole(tokens.peek(), 1, MOST_STEPS))?;
    tokens.sign(Sign::RightRound)?;
    Ok(steps)
}

/// The ends and the number of steps of a rand.
#[cycle(expr)]
#[tactic(auto, unfolding(crate::specs::Grammar::rand_parts), using(crate::proofs::RandSteps::rand_fails))]
fn rand_parts(
    alloc: Global,
    tokens: &mut Tokens<'_>,
    depth: u8,
) -> Result<(Boxed<Expr>, Boxed<Expr>, u32), Stop<Fault>>
    ensures { Reads (spec.rand_parts depth (spec.inside_of depth) (input_of tokens.old)) result (input_of tokens.new) }
{
    tokens.enter(Sign::LeftRound, depth)?;
    let low = inside_boxed(alloc, tokens, depth)?;
    tokens.sign(Sign::Comma)?;
    let (low, high) = both(low, inside_boxed(alloc, tokens, depth))?;
    let ((low, high), steps) = both((low, high), rand_steps(tokens))?;
    Ok((low, high, steps))
}

#[cycle(expr)]
#[tactic(auto, unfolding(crate::specs::Grammar::primary))]
fn primary(alloc: Global, tokens: &mut Tokens<'_>, depth: u8) -> Result<Primary, Stop<Fault>>
    ensures { Reads (spec.primary depth (spec.inside_of depth) (input_of tokens.old)) result (input_of tokens.new) }
{
    if tokens.at_sign(Sign::LeftRound) {
        return Ok(Primary::Group(group(alloc, tokens, depth)?));
    }
    if tokens.at_keyword(Keyword::Rand) {
        let number = tokens.rand()?;
        let (low, high, steps) = rand_parts(alloc, tokens, depth)?;
        return Ok(Primary::Rand {
            number,
            low,
            high,
            steps,
        });
    }
    let head = tokens.take(words::primary_head(tokens.peek()))?;
    primary_rest(alloc, tokens, depth, head)
}

/// A size of the scope, after the word.
fn scope_size(tokens: &mut Tokens<'_>) -> Result<Primary, Stop<Fault>>
    ensures { Reads (portions.scope_size (input_of tokens.old)) result (input_of tokens.new) }
{
    tokens.sign(Sign::Dot)?;
    let axis = tokens.take(words::size_axis(tokens.peek()))?;
    Ok(Primary::ScopeSize(axis))
}

#[cycle(expr)]
fn primary_rest(
    alloc: Global,
    tokens: &mut Tokens<'_>,
    depth: u8,
    head: PrimaryHead,
) -> Result<Primary, Stop<Fault>>
    ensures { Reads (spec.primary_rest depth (spec.inside_of depth) head (input_of tokens.old)) result (input_of tokens.new) }
{
    match head {
        PrimaryHead::Number(value) => Ok(Primary::Number(value)),
        PrimaryHead::Named(name) => Ok(Primary::Named(name)),
        PrimaryHead::Scope => scope_size(tokens),
        PrimaryHead::Floor => Ok(Primary::Floor(group(alloc, tokens, depth)?)),
        PrimaryHead::Ceil => Ok(Primary::Ceil(group(alloc, tokens, depth)?)),
    }
}

/// Takes a minus, where one comes next.
fn minus(tokens: &mut Tokens<'_>) -> bool
    ensures { TakesMinus (input_of tokens.old) result (input_of tokens.new) }
{
    let minus = tokens.at_sign(Sign::Minus);
    if minus {
        tokens.skip();
    }
    minus
}

#[cycle(expr)]
fn factor(alloc: Global, tokens: &mut Tokens<'_>, depth: u8) -> Result<Factor, Stop<Fault>>
    ensures { Reads (spec.factor depth (spec.inside_of depth) (input_of tokens.old)) result (input_of tokens.new) }
{
    let minus = minus(tokens);
    let primary = primary(alloc, tokens, depth)?;
    Ok(Factor { minus, primary })
}

fn begins_scaled(tokens: &Tokens<'_>) -> bool
    ensures { result ≡ begins spec.is_scaling (input_of tokens.now).left }
{
    words::scaling(tokens.peek()).is_some()
}

fn begins_added(tokens: &Tokens<'_>) -> bool
    ensures { result ≡ begins spec.is_addition (input_of tokens.now).left }
{
    words::addition(tokens.peek()).is_some()
}

#[cycle(expr)]
#[tactic(auto, unfolding(crate::specs::Grammar::scaled))]
fn scaled(alloc: Global, tokens: &mut Tokens<'_>, depth: u8) -> Result<Scaled, Stop<Fault>>
    ensures { Reads (spec.scaled depth (spec.inside_of depth) (input_of tokens.old)) result (input_of tokens.new) }
{
    let divide = tokens.take(words::scaling(tokens.peek()))?;
    let factor = factor(alloc, tokens, depth)?;
    Ok(Scaled { divide, factor })
}

#[cycle(expr)]
pub(crate) fn all_scaled(
    alloc: Global,
    tokens: &mut Tokens<'_>,
    depth: u8,
) -> Result<List<Scaled>, Stop<Fault>>
    ensures { Reads (many spec.is_scaling (spec.scaled depth (spec.inside_of depth)) (input_of tokens.old)) result (input_of tokens.new) }
{
    all_of(
        alloc,
        tokens,
        begins_scaled,
        |rest: &mut Tokens<'_>|
            ensures { Reads (spec.scaled depth (spec.inside_of depth) (input_of rest.old)) result (input_of rest.new) }
        { scaled(alloc, rest, depth) },
    )
}

#[cycle(expr)]
#[tactic(auto, unfolding(crate::specs::Grammar::term))]
fn term(alloc: Global, tokens: &mut Tokens<'_>, depth: u8) -> Result<Term, Stop<Fault>>
    ensures { Reads (spec.term depth (spec.inside_of depth) (input_of tokens.old)) result (input_of tokens.new) }
{
    let first = factor(alloc, tokens, depth)?;
    let (first, rest) = both(first, all_scaled(alloc, tokens, depth))?;
    Ok(Term {
        first,
        rest: fitted(rest),
    })
}

#[cycle(expr)]
#[tactic(auto, unfolding(crate::specs::Grammar::added))]
fn added(alloc: Global, tokens: &mut Tokens<'_>, depth: u8) -> Result<Added, Stop<Fault>>
    ensures { Reads (spec.added depth (spec.inside_of depth) (input_of tokens.old)) result (input_of tokens.new) }
{
    let minus = tokens.take(words::addition(tokens.peek()))?;
    let term = term(alloc, tokens, depth)?;
    Ok(Added { minus, term })
}

#[cycle(expr)]
pub(crate) fn all_added(
    alloc: Global,
    tokens: &mut Tokens<'_>,
    depth: u8,
) -> Result<List<Added>, Stop<Fault>>
    ensures { Reads (many spec.is_addition (spec.added depth (spec.inside_of depth)) (input_of tokens.old)) result (input_of tokens.new) }
{
    all_of(
        alloc,
        tokens,
        begins_added,
        |rest: &mut Tokens<'_>|
            ensures { Reads (spec.added depth (spec.inside_of depth) (input_of rest.old)) result (input_of rest.new) }
        { added(alloc, rest, depth) },
    )
}

/// An expression, where so many brackets may be opened.
#[cycle(expr)]
#[tactic(auto, unfolding(crate::specs::Grammar::expr, crate::specs::Grammar::expr_layer))]
pub(crate) fn expr(alloc: Global, tokens: &mut Tokens<'_>, depth: u8) -> Result<Expr, Stop<Fault>>
    ensures { Reads (spec.expr depth (input_of tokens.old)) result (input_of tokens.new) }
{
    let first = term(alloc, tokens, depth)?;
    let (first, rest) = both(first, all_added(alloc, tokens, depth))?;
    Ok(Expr {
        first,
        rest: fitted(rest),
    })
}
