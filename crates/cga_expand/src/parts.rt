//! The parts that an item makes of the current scope.
ghost use Rattle.std.specs.Prelude.{◌≡◌};
ghost use Rattle.cga_expr.specs.Names.{seen};
ghost use Rattle.cga_fraction.specs.Stops.{Makes};
ghost use Rattle.cga_expand.specs.Collect.{collected};
ghost use Rattle.cga_expand.specs.Scopes.{part_in, repeated, subdivided, taken_apart};

use crate::faults::{or_flat, or_split};
use crate::scopes::{part_in, value_in};
use cga_comp::components;
use cga_expr::Names;
use cga_fraction::{List, Stop};
use cga_frame::Scope;
use cga_rule::{Expr, Size};
use cga_shape::ShapeFault;
use cga_split::{PartSize, repeat, subdiv};
use cga_word::{Axis, Selector};
use std::alloc::Global;

fn part_sizes(
    alloc: Global,
    sizes: &[Size],
    names: &Names,
    scope: &Scope,
) -> Result<List<PartSize>, Stop<ShapeFault>>
    ensures { Makes (collected (part_in (seen names.now) scope.now) sizes.now) result }
{
    let mut made = List::new(alloc);
    for size in sizes {
        let one = part_in(size, names, scope)?;
        made.push(one)?;
    }
    Ok(made)
}

pub(crate) fn subdivided(
    alloc: Global,
    axis: Axis,
    sizes: &List<Size>,
    names: &Names,
    scope: &Scope,
) -> Result<List<Scope>, Stop<ShapeFault>>
    ensures { Makes (subdivided axis sizes.now (seen names.now) scope.now) result }
{
    let sizes = part_sizes(alloc, sizes.as_slice(), names, scope)?;
    let parts = subdiv(alloc, scope, axis, sizes.as_slice())?;
    Ok(or_split(parts)?)
}

pub(crate) fn repeated(
    alloc: Global,
    axis: Axis,
    length: &Expr,
    names: &Names,
    scope: &Scope,
) -> Result<List<Scope>, Stop<ShapeFault>>
    ensures { Makes (repeated axis length.now (seen names.now) scope.now) result }
{
    let length = value_in(length, names, scope)?;
    let parts = repeat(alloc, scope, axis, length)?;
    Ok(or_split(parts)?)
}

pub(crate) fn taken_apart(
    alloc: Global,
    selector: Selector,
    scope: &Scope,
) -> Result<List<Scope>, Stop<ShapeFault>>
    ensures { Makes (taken_apart selector scope.now) result }
{
    let parts = components(alloc, scope, selector)?;
    Ok(or_flat(parts)?)
}
