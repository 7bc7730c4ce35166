ghost use Rattle.std.specs.Prelude.{◌≡◌, ◌<◌};
ghost use Rattle.cga_form.specs.Cursor.{input_of, Reads};
ghost use Rattle.cga_form.specs.Reader.{begins, many};
ghost use Rattle.cga_form.specs.Tokens.{is_sign};
ghost use Rattle.cga_lexer.specs.declared.sign.Sign.TheVariants as sign;
ghost use Rattle.cga_parser.specs.Grammar as spec;

use crate::first::{both, closed, ended, with_first};
use crate::members::all_of;
use crate::parts;
use crate::triples::{move_rest, resize_rest};
use cga_form::fault::Fault;
use cga_form::heads::ItemHead;
use cga_form::tokens::Tokens;
use cga_form::words;
use cga_fraction::{List, Stop};
use cga_lexer::Sign;
use cga_syntax::{Body, Item, Keyword};
use std::alloc::Global;

fn begins_item(tokens: &Tokens<'_>) -> bool
    ensures { result ≡ begins spec.begins_item (input_of tokens.now).left }
{
    tokens.at_sign(Sign::LeftSquare) || words::item_head(tokens.peek()).is_some()
}

/// Items in one more bracket.
#[cycle(item)]
fn inner_items(alloc: Global, tokens: &mut Tokens<'_>, depth: u8) -> Result<List<Item>, Stop<Fault>>
    requires { 0 < depth }
    ensures { Reads (spec.items_by (spec.inner_item depth) (input_of tokens.old)) result (input_of tokens.new) }
{
    items(alloc, tokens, depth - 1)
}

/// Items in one more bracket, or `NIL`.
#[cycle(item)]
fn inner_body(alloc: Global, tokens: &mut Tokens<'_>, depth: u8) -> Result<List<Item>, Stop<Fault>>
    requires { 0 < depth }
    ensures { Reads (spec.body_by (spec.inner_item depth) (input_of tokens.old)) result (input_of tokens.new) }
{
    body(alloc, tokens, depth - 1)
}

#[cycle(item)]
#[tactic(auto, unfolding(crate::specs::Grammar::scoped))]
fn scoped(alloc: Global, tokens: &mut Tokens<'_>, depth: u8) -> Result<List<Item>, Stop<Fault>>
    ensures { Reads (spec.scoped depth (spec.inside_of depth) (spec.inner_item depth) (input_of tokens.old)) result (input_of tokens.new) }
{
    tokens.enter(Sign::LeftSquare, depth)?;
    let items = inner_items(alloc, tokens, depth);
    ended(tokens, items, Sign::RightSquare)
}

#[cycle(item)]
#[tactic(auto, unfolding(crate::specs::Grammar::braced_body))]
fn braced_body(alloc: Global, tokens: &mut Tokens<'_>, depth: u8) -> Result<Body, Stop<Fault>>
    ensures { Reads (spec.braced_body depth (spec.inside_of depth) (spec.inner_item depth) (input_of tokens.old)) result (input_of tokens.new) }
{
    tokens.enter(Sign::LeftCurly, depth)?;
    let items = inner_body(alloc, tokens, depth)?;
    tokens.sign(Sign::RightCurly)?;
    Ok(Body { items })
}

/// The bodies after the first.
#[cycle(item)]
#[tactic(auto, unfolding(crate::specs::Grammar::further_body))]
fn further_bodies(
    alloc: Global,
    tokens: &mut Tokens<'_>,
    depth: u8,
) -> Result<List<Body>, Stop<Fault>>
    requires { 0 < depth }
    ensures { Reads (many (is_sign sign.Bar) (spec.further_body depth (spec.inside_of depth) (spec.inner_item depth)) (input_of tokens.old)) result (input_of tokens.new) }
{
    all_of(
        alloc,
        tokens,
        |rest| rest.at_sign(Sign::Bar),
        |rest: &mut Tokens<'_>|
            requires { 0 < depth }
            ensures { Reads (spec.further_body depth (spec.inside_of depth) (spec.inner_item depth) (input_of rest.old)) result (input_of rest.new) }
        {
            rest.sign(Sign::Bar)?;
            let items = inner_body(alloc, rest, depth)?;
            Ok(Body { items })
        },
    )
}

#[cycle(item)]
#[tactic(auto, unfolding(crate::specs::Grammar::braced_bodies))]
fn braced_bodies(
    alloc: Global,
    tokens: &mut Tokens<'_>,
    depth: u8,
) -> Result<List<Body>, Stop<Fault>>
    ensures { Reads (spec.braced_bodies depth (spec.inside_of depth) (spec.inner_item depth) (input_of tokens.old)) result (input_of tokens.new) }
{
    tokens.enter(Sign::LeftCurly, depth)?;
    let items = inner_body(alloc, tokens, depth)?;
    let rest = further_bodies(alloc, tokens, depth);
    closed(tokens, Sign::RightCurly, Body { items }, rest)
}

/// What stands after the word of a split.
#[cycle(item)]
fn subdiv_rest(alloc: Global, tokens: &mut Tokens<'_>, depth: u8) -> Result<Item, Stop<Fault>>
    ensures { Reads (spec.item_rest depth (spec.inside_of depth) (spec.inner_item depth) ItemHead.Subdiv (input_of tokens.old)) result (input_of tokens.new) }
{
    let (axis, sizes) = parts::split_parts(alloc, tokens, depth)?;
    let bodies = braced_bodies(alloc, tokens, depth)?;
    Ok(Item::Subdiv {
        axis,
        sizes,
        bodies,
    })
}

/// What stands after the word of a repeat.
#[cycle(item)]
fn repeat_rest(alloc: Global, tokens: &mut Tokens<'_>, depth: u8) -> Result<Item, Stop<Fault>>
    ensures { Reads (spec.item_rest depth (spec.inside_of depth) (spec.inner_item depth) ItemHead.Repeat (input_of tokens.old)) result (input_of tokens.new) }
{
    let (axis, length) = parts::repeat_parts(alloc, tokens, depth)?;
    let body = braced_body(alloc, tokens, depth)?;
    Ok(Item::Repeat { axis, length, body })
}

/// What stands after the word of a component.
#[cycle(item)]
fn comp_rest(alloc: Global, tokens: &mut Tokens<'_>, depth: u8) -> Result<Item, Stop<Fault>>
    ensures { Reads (spec.item_rest depth (spec.inside_of depth) (spec.inner_item depth) ItemHead.Comp (input_of tokens.old)) result (input_of tokens.new) }
{
    let selector = parts::selector_part(tokens, depth)?;
    let body = braced_body(alloc, tokens, depth)?;
    Ok(Item::Comp { selector, body })
}

/// What stands after the word of an item.
#[cycle(item)]
fn item_rest(
    alloc: Global,
    tokens: &mut Tokens<'_>,
    depth: u8,
    head: ItemHead,
) -> Result<Item, Stop<Fault>>
    ensures { Reads (spec.item_rest depth (spec.inside_of depth) (spec.inner_item depth) head (input_of tokens.old)) result (input_of tokens.new) }
{
    match head {
        ItemHead::Move => move_rest(alloc, tokens, depth),
        ItemHead::Resize => resize_rest(alloc, tokens, depth),
        ItemHead::Rotate(axis) => {
            let by = parts::turn_part(tokens, depth)?;
            Ok(Item::Rotate { axis, by })
        }
        ItemHead::Solid => Ok(Item::Solid(parts::solid_part(tokens, depth)?)),
        ItemHead::Subdiv => subdiv_rest(alloc, tokens, depth),
        ItemHead::Repeat => repeat_rest(alloc, tokens, depth),
        ItemHead::Comp => comp_rest(alloc, tokens, depth),
        ItemHead::Child(symbol) => {
            let args = parts::arguments(alloc, tokens, depth)?;
            Ok(Item::Child { symbol, args })
        }
    }
}

/// An item, where so many brackets may be opened.
#[cycle(item)]
#[tactic(auto, unfolding(crate::specs::Grammar::item, crate::specs::Grammar::item_layer))]
fn item(alloc: Global, tokens: &mut Tokens<'_>, depth: u8) -> Result<Item, Stop<Fault>>
    ensures { Reads (spec.item depth (input_of tokens.old)) result (input_of tokens.new) }
{
    if tokens.at_sign(Sign::LeftSquare) {
        return Ok(Item::Scoped(scoped(alloc, tokens, depth)?));
    }
    let head = tokens.take(words::item_head(tokens.peek()))?;
    item_rest(alloc, tokens, depth, head)
}

/// The items after the first.
#[cycle(item)]
fn further_items(
    alloc: Global,
    tokens: &mut Tokens<'_>,
    depth: u8,
) -> Result<List<Item>, Stop<Fault>>
    ensures { Reads (many spec.begins_item (spec.item depth) (input_of tokens.old)) result (input_of tokens.new) }
{
    all_of(
        alloc,
        tokens,
        begins_item,
        |rest: &mut Tokens<'_>|
            ensures { Reads (spec.item depth (input_of rest.old)) result (input_of rest.new) }
        { item(alloc, rest, depth) },
    )
}

#[cycle(item)]
fn items(alloc: Global, tokens: &mut Tokens<'_>, depth: u8) -> Result<List<Item>, Stop<Fault>>
    ensures { Reads (spec.items_by (spec.item depth) (input_of tokens.old)) result (input_of tokens.new) }
{
    let first = item(alloc, tokens, depth)?;
    let (first, rest) = both(first, further_items(alloc, tokens, depth))?;
    Ok(with_first(first, rest)?)
}

/// Items, or `NIL`, where so many brackets may be opened.
#[cycle(item)]
pub(crate) fn body(
    alloc: Global,
    tokens: &mut Tokens<'_>,
    depth: u8,
) -> Result<List<Item>, Stop<Fault>>
    ensures { Reads (spec.body_by (spec.item depth) (input_of tokens.old)) result (input_of tokens.new) }
{
    if tokens.at_keyword(Keyword::Nil) {
        tokens.keyword(Keyword::Nil)?;
        return Ok(List::new(alloc));
    }
    items(alloc, tokens, depth)
}
