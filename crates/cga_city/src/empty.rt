//! What a city begins with.
ghost use Rattle.std.specs.Prelude.{◌≡◌, []};
ghost use Rattle.cga_update.specs.Stands.{Stands};
ghost use Rattle.cga_city.specs.City.{empty_in};

use cga_depend::Dependents;
use cga_forest::Forest;
use cga_fraction::{List, Shared};
use cga_rule::Grammar;
use cga_shape::{Changes, Lots, Sources};
use cga_update::Kept;
use cga_word::Mode;
use std::alloc::Global;

/// Sources without attributes, rules and lots. Takes no memory.
pub(crate) fn empty_sources(alloc: Global, mode: Mode) -> Sources
    ensures { result ≡ empty_in mode }
{
    Sources {
        grammar: Grammar {
            attributes: List::new(alloc),
            rules: Shared::new(),
        },
        lots: Lots::new(),
        mode,
    }
}

pub(crate) fn no_changes(alloc: Global) -> Changes
    ensures { result ≡ record { gone = []; come = [] } }
{
    Changes {
        gone: List::new(alloc),
        come: List::new(alloc),
    }
}

/// What is kept of sources without attributes, rules and lots. Takes no memory.
pub(crate) fn no_shapes(alloc: Global, mode: Mode) -> Kept
    ensures { Stands (empty_in mode) result }
{
    Kept {
        forest: Forest::new(alloc, mode),
        dependents: Dependents::new(alloc),
    }
}
