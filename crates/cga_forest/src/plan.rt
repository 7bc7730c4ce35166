ghost use Rattle.std.specs.Prelude.{◌≡◌, ◌≤◌, [], length, IfOk};
ghost use Rattle.cga_forest.specs.View.{at, kids};
ghost use Rattle.cga_forest.specs.Tree.{stay_of};
ghost use Rattle.cga_forest.specs.Gathered.{found, going};

use crate::listing::list_going;
use crate::node::Node;
use crate::node_change::NodeChange;
use crate::store::Store;
use cga_fraction::NoMemory;
use std::alloc::Global;

/// What is told of a replacement of children before it is done.
#[derive(Drop)]
pub struct Plan {
    /// The nodes that will go.
    pub removed: Vec<NodeChange>,
    /// Room for those that will come.
    pub created: Vec<NodeChange>,
}

impl Plan {
    /// What will go where a node's children are replaced, with at most so many levels at and below each, and room for what
    /// will come. Takes memory.
    pub fn of(
        store: &Store,
        alloc: Global,
        id: usize,
        left: usize,
        news: &[Node],
    ) -> Result<Plan, NoMemory>
        ensures removed { IfOk result (λ plan. plan.removed.items ≡ found (λ c. at store.now c)
            (going (λ d. kids (at store.now d)) left (λ k w. stay_of (at store.now k) w) (kids (at store.now id)) news.now (length (kids (at store.now id))))) }
        ensures empty { IfOk result (λ plan. plan.created.items ≡ []) }
        ensures room { IfOk result (λ plan. length news.now ≤ plan.created.cap) }
    {
        let mut removed = Vec::new(alloc);
        list_going(store, id, left, news, &mut removed)?;
        let created = Vec::with_capacity(alloc, news.len())?;
        Ok(Plan { removed, created })
    }
}
