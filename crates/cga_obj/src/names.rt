//! What the fields of instances are, by their types: names are names.
ghost use Rattle.std.specs.Prelude.{All};
ghost use Rattle.cga_obj.specs.DeltaLaws.{AreNamed, IsNamed};

use cga_shape::{Changes, Drawn};

fn is_named(drawn: &Drawn)
    ensures { IsNamed drawn.now }
{
    let _lot = drawn.lot.bytes();
    let _symbol = drawn.symbol.bytes();
}

fn all_named(all: &[Drawn])
    ensures { All IsNamed all.now }
{
    for drawn in all {
        is_named(drawn);
    }
}

/// Does nothing: its contract is what the types keep.
pub fn are_named(changes: &Changes)
    ensures { AreNamed changes.now }
{
    all_named(changes.gone.as_slice());
    all_named(changes.come.as_slice());
}
