ghost use Rattle.std.specs.Prelude.{IfOk, IsSome};
ghost use Rattle.cga_forest.specs.NodeChange.{ListsBelow};
ghost use Rattle.cga_forest.specs.Tree.{node_at};

use crate::listing::list_below;
use crate::node_change::NodeChange;
use crate::{Forest, slot_of};
use cga_fraction::{List, NoMemory};
use cga_index::{LEVELS, NodeId};

impl Forest {
    /// A node and all below it, each once. The time goes by their number. Takes memory.
    pub fn below(&self, id: NodeId) -> Result<List<NodeChange>, NoMemory>
        requires here { IsSome (node_at self.now id) }
        ensures { IfOk result (λ list. ListsBelow self.now id list) }
    {
        let mut list = Vec::new(self.alloc);
        list_below(&self.store, slot_of(id), LEVELS, &mut list)?;
        Ok(List::from_vec(list))
    }
}
