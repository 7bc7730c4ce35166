//! What an item makes of the current scope: another scope, or its parts.
ghost use Rattle.std.specs.Prelude.{◌≡◌};
ghost use Rattle.cga_expr.specs.Names.{seen};
ghost use Rattle.cga_expand.specs.Scopes.{moved_by, part_in, resized_by, size_in, sized, turned_by, value_in};

use crate::faults::{or_expr, or_overflow, or_scope};
use cga_expr::{Names, value};
use cga_fraction::Fraction;
use cga_frame::{Point, Scope};
use cga_rule::{Expr, Size};
use cga_shape::ShapeFault;
use cga_split::PartSize;
use cga_word::{Axis, Turn};

fn sized<'a>(names: &Names<'a>, scope: &Scope) -> Names<'a>
    ensures { seen result ≡ sized (seen names.now) scope.now }
{
    Names {
        params: names.params,
        args: names.args,
        attributes: names.attributes,
        size: scope.size(),
        seed: names.seed,
    }
}

pub(crate) fn value_in(expr: &Expr, names: &Names, scope: &Scope) -> Result<Fraction, ShapeFault>
    ensures { result ≡ value_in (seen names.now) scope.now expr.now }
{
    or_expr(value(expr, &sized(names, scope)))
}

pub(crate) fn moved(
    x: &Expr,
    y: &Expr,
    z: &Expr,
    names: &Names,
    scope: &Scope,
) -> Result<Scope, ShapeFault>
    ensures { result ≡ moved_by x.now y.now z.now (seen names.now) scope.now }
{
    let x = value_in(x, names, scope)?;
    let y = value_in(y, names, scope)?;
    let z = value_in(z, names, scope)?;
    or_overflow(scope.translate(Point { x, y, z }))
}

fn size_in(size: &Size, axis: Axis, names: &Names, scope: &Scope) -> Result<Fraction, ShapeFault>
    ensures { result ≡ size_in (seen names.now) scope.now axis size.now }
{
    match size {
        Size::Relative(factor) => or_overflow(factor.mul(scope.size().along(axis))),
        Size::Absolute(expr) => value_in(expr, names, scope),
    }
}

pub(crate) fn resized(
    x: &Size,
    y: &Size,
    z: &Size,
    names: &Names,
    scope: &Scope,
) -> Result<Scope, ShapeFault>
    ensures { result ≡ resized_by x.now y.now z.now (seen names.now) scope.now }
{
    let x = size_in(x, Axis::X, names, scope)?;
    let y = size_in(y, Axis::Y, names, scope)?;
    let z = size_in(z, Axis::Z, names, scope)?;
    or_scope(scope.resize(Point { x, y, z }))
}

pub(crate) fn turned(axis: Axis, by: Turn, scope: &Scope) -> Result<Scope, ShapeFault>
    ensures { result ≡ turned_by axis by scope.now }
{
    or_overflow(scope.turn(axis, by))
}

pub(crate) fn part_in(size: &Size, names: &Names, scope: &Scope) -> Result<PartSize, ShapeFault>
    ensures { result ≡ part_in (seen names.now) scope.now size.now }
{
    match size {
        Size::Relative(factor) => Ok(PartSize::Relative(*factor)),
        Size::Absolute(expr) => Ok(PartSize::Absolute(value_in(expr, names, scope)?)),
    }
}
