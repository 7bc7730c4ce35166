//! The items of a successor, from left to right.
ghost use Rattle.std.specs.Prelude.{◌≡◌, map};
ghost use Rattle.cga_expr.specs.Names.{seen};
ghost use Rattle.cga_expand.specs.Scopes.{repeated, subdivided, taken_apart};
ghost use Rattle.cga_expand.specs.Stops.{Gives};
ghost use Rattle.cga_expand.specs.Walk.{body_walk, in_turn, item_walk, over, over_bodies, over_body, with_scope};

use crate::emit::{count_parts, draw, grow};
use crate::parts::{repeated, subdivided, taken_apart};
use crate::progress::Progress;
use crate::scopes::{moved, resized, turned};
use cga_expr::Names;
use cga_fraction::{List, Stop};
use cga_frame::Scope;
use cga_rule::{Body, Expr, Item, Size};
use cga_shape::ShapeFault;
use cga_word::{Axis, Selector};
use std::alloc::Global;

#[cycle(walk)]
#[tactic(auto, using(crate::proofs::Layers::layers))]
pub(crate) fn walk_items(
    alloc: Global,
    items: &[Item],
    names: &Names,
    state: &mut Progress,
) -> Result<(), Stop<ShapeFault>>
    ensures { Gives (in_turn (map item_walk items.now) (seen names.now) state.old) state.new result }
{
    for item in items {
        walk_item(alloc, item, names, state)?;
    }
    Ok(())
}

#[cycle(walk)]
#[tactic(auto, using(crate::proofs::Layers::layers))]
fn walk_body(
    alloc: Global,
    body: &Body,
    names: &Names,
    scope: Scope,
    state: &mut Progress,
) -> Result<(), Stop<ShapeFault>>
    ensures { Gives (body_walk body.now (seen names.now) (with_scope scope state.old)) state.new result }
{
    state.scope = scope;
    walk_items(alloc, body.items.as_slice(), names, state)
}

// One body for all parts.
#[cycle(walk)]
fn walk_parts(
    alloc: Global,
    body: &Body,
    parts: &[Scope],
    names: &Names,
    state: &mut Progress,
) -> Result<(), Stop<ShapeFault>>
    ensures { Gives (over_body (body_walk body.now) parts.now (seen names.now) state.old) state.new result }
{
    for part in parts {
        walk_body(alloc, body, names, *part, state)?;
    }
    Ok(())
}

// A body for each part.
#[cycle(walk)]
fn walk_each(
    alloc: Global,
    bodies: &[Body],
    parts: &[Scope],
    names: &Names,
    state: &mut Progress,
) -> Result<(), Stop<ShapeFault>>
    ensures { Gives (over_bodies (map body_walk bodies.now) parts.now (seen names.now) state.old) state.new result }
{
    let mut rest = parts;
    for body in bodies {
        let Some((part, others)) = rest.split_first() else {
            return Ok(());
        };
        walk_body(alloc, body, names, *part, state)?;
        rest = others;
    }
    Ok(())
}

#[cycle(walk)]
fn walk_subdiv(
    alloc: Global,
    bodies: &List<Body>,
    axis: Axis,
    sizes: &List<Size>,
    names: &Names,
    state: &mut Progress,
) -> Result<(), Stop<ShapeFault>>
    ensures { Gives (over (subdivided axis sizes.now (seen names.now) state.old.scope)
        (over_bodies (map body_walk bodies.now)) (seen names.now) state.old) state.new result }
{
    let before = state.scope;
    let parts = subdivided(alloc, axis, sizes, names, &before)?;
    count_parts(state, parts.len())?;
    walk_each(alloc, bodies.as_slice(), parts.as_slice(), names, state)?;
    state.scope = before;
    Ok(())
}

#[cycle(walk)]
fn walk_repeat(
    alloc: Global,
    body: &Body,
    axis: Axis,
    length: &Expr,
    names: &Names,
    state: &mut Progress,
) -> Result<(), Stop<ShapeFault>>
    ensures { Gives (over (repeated axis length.now (seen names.now) state.old.scope)
        (over_body (body_walk body.now)) (seen names.now) state.old) state.new result }
{
    let before = state.scope;
    let parts = repeated(alloc, axis, length, names, &before)?;
    count_parts(state, parts.len())?;
    walk_parts(alloc, body, parts.as_slice(), names, state)?;
    state.scope = before;
    Ok(())
}

#[cycle(walk)]
fn walk_comp(
    alloc: Global,
    body: &Body,
    selector: Selector,
    names: &Names,
    state: &mut Progress,
) -> Result<(), Stop<ShapeFault>>
    ensures { Gives (over (taken_apart selector state.old.scope)
        (over_body (body_walk body.now)) (seen names.now) state.old) state.new result }
{
    let before = state.scope;
    let parts = taken_apart(alloc, selector, &before)?;
    count_parts(state, parts.len())?;
    walk_parts(alloc, body, parts.as_slice(), names, state)?;
    state.scope = before;
    Ok(())
}

#[cycle(walk)]
#[tactic(auto, using(crate::proofs::Layers::layers))]
fn walk_item(
    alloc: Global,
    item: &Item,
    names: &Names,
    state: &mut Progress,
) -> Result<(), Stop<ShapeFault>>
    ensures { Gives (item_walk item.now (seen names.now) state.old) state.new result }
{
    let before = state.scope;
    match item {
        Item::Move(x, y, z) => {
            state.scope = moved(x.get(), y.get(), z.get(), names, &before)?;
            Ok(())
        }
        Item::Resize(x, y, z) => {
            state.scope = resized(x.get(), y.get(), z.get(), names, &before)?;
            Ok(())
        }
        Item::Rotate { axis, by } => {
            state.scope = turned(*axis, *by, &before)?;
            Ok(())
        }
        Item::Scoped(items) => {
            walk_items(alloc, items.as_slice(), names, state)?;
            state.scope = before;
            Ok(())
        }
        Item::Solid(primitive) => draw(state, *primitive, names),
        Item::Subdiv {
            axis,
            sizes,
            bodies,
        } => walk_subdiv(alloc, bodies, *axis, sizes, names, state),
        Item::Repeat { axis, length, body } => walk_repeat(
            alloc,
            body,
            *axis,
            length.get(),
            names,
            state,
        ),
        Item::Comp { selector, body } => walk_comp(alloc, body, *selector, names, state),
        Item::Child { symbol, args } => grow(alloc, state, *symbol, args, names),
    }
}
