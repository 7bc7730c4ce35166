ghost use Rattle.std.specs.Prelude.{◌≡◌, true, is_some, Some};
ghost use Rattle.cga_forest.specs.Hull.{hulls_known, own_hulls};
ghost use Rattle.cga_forest.specs.View.{keeps_former, rewritten, present_of, marked_of, hulls_of, marked_hulls_of, KeepsBooks};

use crate::former::Former;
use crate::former_box::FormerBox;
use crate::node::{Node, NodeState};
use cga_kept_hulls::{Hulls, HullsBox, KeptHulls};

#[derive(Drop)]
pub struct SlotEntry {
    pub node: Node,
    pub parent: Option<usize>,
    pub children: Vec<usize>,
    pub hulls: KeptHulls,
    pub aside: bool,
    pub created: bool,
    pub touched: bool,
    pub former: Option<FormerBox>,
    pub former_hulls: Option<KeptHulls>,
}

impl SlotEntry {
    pub fn known_hulls(&self) -> Hulls
        ensures { result ≡ hulls_known self.now.node self.now.hulls }
    {
        self.hulls.of(&self.node.shape.scope)
    }

    /// Whether its hulls are those of its own box alone.
    pub fn has_own_hulls(&self) -> bool
        ensures { result ≡ true → hulls_known self.now.node self.now.hulls ≡ own_hulls self.now.node }
    {
        match self.hulls {
            KeptHulls::Own(asks) => asks == self.node.asks,
            KeptHulls::Other(_) => false,
        }
    }

    /// Whether what it is is to be kept for the mark, before it gets other content.
    pub fn keeps_former(&self, marking: bool) -> bool
        ensures { result ≡ keeps_former marking (Some self.now) }
    {
        marking && !self.created && self.former.is_none()
    }

    /// Takes no memory but the spare box, which is there where what it was is to be kept.
    pub fn rewrite(
        &mut self,
        marking: bool,
        state: NodeState,
        children: Vec<usize>,
        spare: Option<FormerBox>,
    )
        requires touched { marking ≡ true → self.old.touched ≡ true }
        ensures present { present_of (Some self.new) ≡ rewritten state children.items (present_of (Some self.old)) }
        ensures marked { marking ≡ true → (keeps_former marking (Some self.old) ≡ true → is_some spare ≡ true) → marked_of (Some self.new) ≡ marked_of (Some self.old) }
        ensures hulls { hulls_of (Some self.new) ≡ hulls_of (Some self.old) }
        ensures marked_hulls { marked_hulls_of (Some self.new) ≡ marked_hulls_of (Some self.old) }
        ensures books { KeepsBooks self.old self.new }
    {
        let keeps = self.keeps_former(marking);
        let former = Former {
            state: self.node.state(),
            children: std::mem::replace(&mut self.children, children),
        };
        self.node.set_state(state);
        match spare {
            Some(spare) if keeps => self.former = Some(spare.filled(former)),
            Some(_) | None => {}
        }
    }

    /// Takes no memory but the spare box.
    pub fn set_hulls(&mut self, marking: bool, hulls: Hulls, spare: HullsBox)
        requires touched { marking ≡ true → self.old.touched ≡ true }
        ensures present { present_of (Some self.new) ≡ present_of (Some self.old) }
        ensures marked { marked_of (Some self.new) ≡ marked_of (Some self.old) }
        ensures hulls { hulls_of (Some self.new) ≡ Some hulls }
        ensures marked_hulls { marking ≡ true → marked_hulls_of (Some self.new) ≡ marked_hulls_of (Some self.old) }
        ensures books { KeepsBooks self.old self.new }
    {
        let kept = KeptHulls::Other(spare.filled(hulls));
        let former = std::mem::replace(&mut self.hulls, kept);
        if marking && !self.created && self.former_hulls.is_none() {
            self.former_hulls = Some(former);
        }
    }
}
