//! What an expansion emits, and how many parts it makes.
ghost use Rattle.std.specs.Prelude.{◌≡◌};
ghost use Rattle.cga_expr.specs.Names.{seen};
ghost use Rattle.cga_fraction.specs.Stops.{Makes};
ghost use Rattle.cga_expand.specs.Collect.{collected};
ghost use Rattle.cga_expand.specs.Scopes.{value_in};
ghost use Rattle.cga_expand.specs.Stops.{Gives};
ghost use Rattle.cga_expand.specs.Walk.{count_parts, drawn, grown, next_index};

use crate::faults::or_solid;
use crate::limits::{MOST_CHILDREN, MOST_PARTS};
use crate::progress::Progress;
use crate::scopes::value_in;
use cga_expr::Names;
use cga_fraction::{Fraction, List, Stop};
use cga_frame::Scope;
use cga_rule::Expr;
use cga_shape::{Emitted, ShapeFault};
use cga_solid::check_solid;
use cga_word::{Name, Primitive, child_seed};
use std::alloc::Global;

fn next_index(state: &Progress) -> Result<u16, ShapeFault>
    ensures { result ≡ next_index state.now }
{
    let index = state.children.len();
    if index >= MOST_CHILDREN {
        return Err(ShapeFault::TooManyChildren);
    }
    Ok(index as u16)
}

pub(crate) fn draw(
    state: &mut Progress,
    primitive: Primitive,
    names: &Names,
) -> Result<(), Stop<ShapeFault>>
    ensures { Gives (drawn primitive (seen names.now) state.old) state.new result }
{
    let scope = state.scope;
    or_solid(check_solid(primitive, &scope))?;
    let seed = child_seed(names.seed, next_index(state)?);
    state.children.push(Emitted::Solid {
        primitive,
        scope,
        seed,
    })?;
    Ok(())
}

pub(crate) fn grow(
    alloc: Global,
    state: &mut Progress,
    symbol: Name,
    args: &List<Expr>,
    names: &Names,
) -> Result<(), Stop<ShapeFault>>
    ensures { Gives (grown symbol args.now (seen names.now) state.old) state.new result }
{
    let scope = state.scope;
    let args = values(alloc, args.as_slice(), names, &scope)?;
    let seed = child_seed(names.seed, next_index(state)?);
    state.children.push(Emitted::Child {
        symbol,
        args,
        scope,
        seed,
    })?;
    Ok(())
}

pub(crate) fn count_parts(state: &mut Progress, made: usize) -> Result<(), Stop<ShapeFault>>
    ensures { Gives (count_parts made state.old) state.new result }
{
    if made > MOST_PARTS || state.parts > MOST_PARTS - made {
        return Err(Stop::Fault(ShapeFault::TooManyParts));
    }
    state.parts += made;
    Ok(())
}

fn values(
    alloc: Global,
    exprs: &[Expr],
    names: &Names,
    scope: &Scope,
) -> Result<List<Fraction>, Stop<ShapeFault>>
    ensures { Makes (collected (value_in (seen names.now) scope.now) exprs.now) result }
{
    let mut values = List::new(alloc);
    for expr in exprs {
        let one = value_in(expr, names, scope)?;
        values.push(one)?;
    }
    Ok(values)
}
