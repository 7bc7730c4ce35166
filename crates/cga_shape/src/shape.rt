ghost use Rattle.std.specs.Prelude.{◌≡◌, IsOk};
ghost use Rattle.cga_shape.specs.Root.{root_of, root_scope};

use crate::lot::Lot;
use cga_fraction::{Fraction, List};
use cga_frame::Scope;
use cga_order::Path;
use cga_word::Name;
use std::alloc::Global;

/// A shape, by all that its expansion reads of it. An instance has the symbol of the shape that
/// emitted it, and no arguments.
#[derive(Drop, PartialEq, Eq)]
pub struct Shape {
    // The two names side by side take the least room.
    pub lot: Name,
    pub symbol: Name,
    pub path: Path,
    pub args: List<Fraction>,
    pub scope: Scope,
    pub seed: u64,
}

/// The root of a lot, in the lot's scope. Takes no memory.
pub fn root_shape(alloc: Global, lot: &Lot) -> Shape
    requires { IsOk (root_scope lot.now) }
    ensures { root_of lot.now ≡ Ok result }
{
    match lot.root_scope() {
        Ok(scope) => Shape {
            lot: lot.name,
            path: Path::new(alloc),
            symbol: lot.symbol,
            args: List::new(alloc),
            scope,
            seed: lot.seed,
        },
        Err(_) => unreachable!(),
    }
}
