//! The nodes of a lot in the order of their paths.
ghost use Rattle.std.specs.Prelude.{IfOk};
ghost use Rattle.cga_city.specs.Nodes.{AreOfLot};

use cga_forest::Forest;
use cga_fraction::NoMemory;
use cga_index::{NodeId, nodes_from};
use cga_word::Name;
use std::alloc::Global;

/// The nodes of a lot, by their paths: no walk over other lots. Takes memory.
pub(crate) fn nodes_of_lot(
    alloc: Global,
    forest: &Forest,
    lot: Name,
) -> Result<Vec<NodeId>, NoMemory>
    ensures { IfOk result (λ nodes. AreOfLot forest.now lot nodes.items) }
{
    forest.laws(); // for the proof
    match forest.root_of(lot) {
        Some(root) => nodes_from(alloc, forest, root),
        None => Ok(Vec::new(alloc)),
    }
}
