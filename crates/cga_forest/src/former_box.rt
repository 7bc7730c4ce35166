ghost use Rattle.std.specs.Prelude.{◌≡◌};

use crate::former::Former;
use crate::node::NodeState;
use cga_fraction::NoMemory;
use std::alloc::Global;
use std::marker::Model;

/// What a node was at the mark, in a box which can be taken ahead and filled later. Contracts see it as what is in it.
#[derive(Drop)]
pub struct FormerBox {
    inner: Box<Former>,
}

impl Model for FormerBox {
    ghost use Rattle.cga_forest.specs.declared.former.Former.{Former};

    ghost Value = { Former };

    ghost view = { λ b. b.inner.value };
}

impl FormerBox {
    /// A box with this state and no children in it. Takes memory.
    pub fn new(alloc: Global, state: NodeState) -> Result<FormerBox, NoMemory> {
        let children = Vec::new(alloc);
        Ok(FormerBox {
            inner: Box::new(alloc, Former { state, children })?,
        })
    }

    /// The box with this in it. Takes no memory.
    pub fn filled(self, former: Former) -> FormerBox
        ensures { result ≡ former }
    {
        let FormerBox { mut inner } = self;
        *inner = former;
        FormerBox { inner }
    }

    pub fn into_inner(self) -> Former
        ensures { result ≡ self }
    {
        Box::into_inner(self.inner)
    }
}
