ghost use Rattle.std.specs.Prelude.{◌≡◌, ◌++◌, ◌∷◌, []};
ghost use Rattle.cga_expand.specs.Children.{placed_at};
ghost use Rattle.cga_derive.specs.Run.{waiting_symbol};

use cga_fraction::List;
use cga_order::{Path, StampKey};
use cga_shape::{Emitted, Kind, Placed, Shape};
use cga_word::Name;
use std::alloc::Global;

/// Emitted child `index` of the shape of a key, whose symbol is `own`. Takes no memory.
pub fn member_of(
    alloc: Global,
    parent: &StampKey,
    path: Path,
    own: Name,
    _index: u16,
    emitted: Emitted,
) -> Placed
    requires { path ≡ parent.now.path ++ _index ∷ [] }
    ensures { result ≡ placed_at parent.now.lot parent.now.path own _index emitted }
{
    let lot = parent.lot;
    match emitted {
        Emitted::Child {
            symbol,
            args,
            scope,
            seed,
        } => Placed {
            shape: Shape {
                lot,
                path,
                symbol,
                args,
                scope,
                seed,
            },
            kind: Kind::Waiting,
        },
        Emitted::Solid {
            primitive,
            scope,
            seed,
        } => Placed {
            shape: Shape {
                lot,
                path,
                symbol: own,
                args: List::new(alloc),
                scope,
                seed,
            },
            kind: Kind::Instance(primitive),
        },
    }
}

/// The symbol of a child that waits; a solid doesn't.
pub fn waiting_symbol(emitted: &Emitted) -> Option<Name>
    ensures { result ≡ waiting_symbol emitted.now }
{
    match emitted {
        Emitted::Child { symbol, .. } => Some(*symbol),
        Emitted::Solid { .. } => None,
    }
}
