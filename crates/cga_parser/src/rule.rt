ghost use Rattle.std.specs.Prelude.{◌≡◌, []};
ghost use Rattle.cga_form.specs.Cursor.{input_of, Finds, Reads};
ghost use Rattle.cga_form.specs.Reader.{many, many_from};
ghost use Rattle.cga_form.specs.Tokens.{is_sign};
ghost use Rattle.cga_lexer.specs.declared.sign.Sign.TheVariants as sign;
ghost use Rattle.cga_syntax.specs.Limits.{most_further};
ghost use Rattle.cga_parser.specs.Grammar as spec;
ghost use Rattle.cga_parser.specs.Portions as portions;

use crate::cond::cond;
use crate::first::{both, closed, shared, shared_box, with_first};
use crate::item::body;
use crate::members::{all_of, few_of};
use cga_form::fault::Fault;
use cga_form::numbers;
use cga_form::parts::{finish, id, name};
use cga_form::tokens::Tokens;
use cga_fraction::{Fraction, List, NoMemory, SharedBox, Stop};
use cga_lexer::{Sign, Token};
use cga_syntax::limits::MOST_FURTHER;
use cga_syntax::{Alternative, Cond, Rule};
use cga_word::Name;
use std::alloc::Global;

/// At most three names after the first.
#[tactic(auto, unfolding(crate::specs::Grammar::further_name))]
fn further_names(alloc: Global, tokens: &mut Tokens<'_>) -> Result<List<Name>, Stop<Fault>>
    ensures { Reads (many_from (is_sign sign.Comma) spec.further_name most_further [] (input_of tokens.old)) result (input_of tokens.new) }
{
    few_of(
        alloc,
        tokens,
        MOST_FURTHER,
        |rest| rest.at_sign(Sign::Comma),
        |rest: &mut Tokens<'_>|
            ensures { Reads (spec.further_name (input_of rest.old)) result (input_of rest.new) }
        {
            rest.sign(Sign::Comma)?;
            Ok(name(rest)?)
        },
    )
}

#[tactic(auto, unfolding(crate::specs::Grammar::some_parameters))]
fn some_parameters(
    alloc: Global,
    tokens: &mut Tokens<'_>,
    depth: u8,
) -> Result<List<Name>, Stop<Fault>>
    ensures { Reads (spec.some_parameters depth (input_of tokens.old)) result (input_of tokens.new) }
{
    tokens.enter(Sign::LeftRound, depth)?;
    let first = name(tokens)?;
    let rest = further_names(alloc, tokens);
    closed(tokens, Sign::RightRound, first, rest)
}

#[tactic(auto, unfolding(crate::specs::Grammar::parameters))]
fn parameters(alloc: Global, tokens: &mut Tokens<'_>, depth: u8) -> Result<List<Name>, Stop<Fault>>
    ensures { Reads (spec.parameters depth (input_of tokens.old)) result (input_of tokens.new) }
{
    if tokens.at_sign(Sign::LeftRound) {
        return some_parameters(alloc, tokens, depth);
    }
    Ok(List::new(alloc))
}

#[tactic(auto, unfolding(crate::specs::Grammar::condition))]
fn condition(
    alloc: Global,
    tokens: &mut Tokens<'_>,
    depth: u8,
) -> Result<Option<SharedBox<Cond>>, Stop<Fault>>
    ensures { Reads (spec.condition depth (input_of tokens.old)) result (input_of tokens.new) }
{
    if tokens.at_sign(Sign::Colon) {
        tokens.sign(Sign::Colon)?;
        return Ok(Some(shared_box(alloc, cond(alloc, tokens, depth))?));
    }
    Ok(None)
}

#[tactic(auto, unfolding(crate::specs::Grammar::given_probability))]
fn given_probability(tokens: &mut Tokens<'_>) -> Result<Fraction, Fault>
    ensures { Finds (spec.given_probability (input_of tokens.old)) result (input_of tokens.new) }
{
    tokens.sign(Sign::Colon)?;
    tokens.take(numbers::number(tokens.peek()))
}

#[tactic(auto, unfolding(crate::specs::Grammar::probability))]
fn probability(tokens: &mut Tokens<'_>) -> Result<Fraction, Fault>
    ensures { Finds (spec.probability (input_of tokens.old)) result (input_of tokens.new) }
{
    if tokens.at_sign(Sign::Colon) {
        return given_probability(tokens);
    }
    Ok(Fraction::from(1))
}

#[tactic(auto, unfolding(crate::specs::Grammar::alternative))]
fn alternative(
    alloc: Global,
    tokens: &mut Tokens<'_>,
    depth: u8,
) -> Result<Alternative, Stop<Fault>>
    ensures { Reads (spec.alternative depth (input_of tokens.old)) result (input_of tokens.new) }
{
    tokens.sign(Sign::Arrow)?;
    let items = body(alloc, tokens, depth)?;
    let prob = probability(tokens)?;
    Ok(Alternative { items, prob })
}

fn further_alternatives(
    alloc: Global,
    tokens: &mut Tokens<'_>,
    depth: u8,
) -> Result<List<Alternative>, Stop<Fault>>
    ensures { Reads (many (is_sign sign.Arrow) (spec.alternative depth) (input_of tokens.old)) result (input_of tokens.new) }
{
    all_of(
        alloc,
        tokens,
        |rest| rest.at_sign(Sign::Arrow),
        |rest| alternative(alloc, rest, depth),
    )
}

/// One or more alternatives.
fn alternatives(
    alloc: Global,
    tokens: &mut Tokens<'_>,
    depth: u8,
) -> Result<List<Alternative>, Stop<Fault>>
    ensures { Reads (portions.alternatives depth (input_of tokens.old)) result (input_of tokens.new) }
{
    let first = alternative(alloc, tokens, depth)?;
    let (first, rest) = both(first, further_alternatives(alloc, tokens, depth))?;
    Ok(with_first(first, rest)?)
}

/// A rule, where so many brackets may be opened.
#[tactic(auto, unfolding(crate::specs::Grammar::rule))]
pub fn rule(alloc: Global, tokens: &mut Tokens<'_>, depth: u8) -> Result<Rule, Stop<Fault>>
    ensures { Reads (spec.rule depth (input_of tokens.old)) result (input_of tokens.new) }
{
    let id = id(tokens)?;
    tokens.sign(Sign::Colon)?;
    let symbol = name(tokens)?;
    let params = shared(alloc, parameters(alloc, tokens, depth))?;
    let (params, cond) = both(params, condition(alloc, tokens, depth))?;
    let ((params, cond), alternatives) = both(
        (params, cond),
        shared(alloc, alternatives(alloc, tokens, depth)),
    )?;
    Ok(Rule {
        id,
        symbol,
        params,
        cond,
        alternatives,
    })
}
