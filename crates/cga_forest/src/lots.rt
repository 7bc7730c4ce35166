//! Lots, and their roots.
ghost use Rattle.std.specs.Prelude.{◌≡◌, ◌≢◌, ◌↔◌, ℕ, [], None, Some, true, false, IfOk, IsOk, OnErr};
ghost use Rattle.cga_shape.specs.Root.{root_scope};
ghost use Rattle.cga_forest.specs.declared.node.Node.{Node};
ghost use Rattle.cga_forest.specs.Node.{IsTop};
ghost use Rattle.cga_forest.specs.Numbers.{KeepsNumbers};
ghost use Rattle.cga_forest.specs.Placing.{IsRootNode};
ghost use Rattle.cga_forest.specs.Tree.{HasNoLot, IsRootOf, IsWithout, KeepsMark, marked_at, node_at};

use crate::Forest;
use crate::covering::cover_place;
use crate::node::Node;
use crate::placing::root_node;
use crate::slots::set_aside;
use crate::store::add_node;
use cga_check::Symbols;
use cga_fraction::NoMemory;
use cga_index::{LEVELS, NodeId};
use cga_kept_hulls::Hulls;
use cga_shape::Lot;
use cga_word::Name;

impl Forest {
    /// The root of the lot of that name. None if and only if no such lot is there. It is found without a walk.
    pub fn root_of(&self, name: Name) -> Option<NodeId>
        ensures { (c : ℕ) → (result ≡ Some c) ↔ IsRootOf (node_at self.now) name c }
    {
        match self.roots.find(name) {
            Some(root) => Some(NodeId::new(root as u64)),
            None => None,
        }
    }

    /// Adds a root, of a lot that isn't there.
    fn add_root(&mut self, node: Node) -> Result<usize, NoMemory>
        requires top { IsTop node }
        requires new { HasNoLot self.old node.shape.lot }
        ensures fresh { IfOk result (λ id. node_at self.old id ≡ None) }
        ensures unmarked { IfOk result (λ id. marked_at self.old id ≡ None) }
        ensures node { IfOk result (λ id. node_at self.new id ≡ Some (record { node = node; depth = 0; parent = None; index = 0; children = [] })) }
        ensures others { IfOk result (λ id. (other : ℕ) → other ≢ id → node_at self.new other ≡ node_at self.old other) }
        ensures mark { KeepsMark self.old self.new }
        ensures numbers { KeepsNumbers self.old self.new }
        ensures mode { self.new.mode ≡ self.old.mode }
        ensures err { OnErr result (self.new ≡ self.old) }
    {
        let (alloc, marking, name) = (self.alloc, self.marking, node.lot());
        let last = self.roots.len();
        self.blocks.make_room(last, &node.own_hulls())?;
        self.store.reserve(1)?;
        self.roots.reserve()?;
        let id = add_node(&mut self.store, alloc, marking, node, None);
        let place = self.roots.push(name, id);
        self.roots.settle_unless(marking);
        cover_place(&mut self.blocks, &self.store, &self.roots, place);
        cover_place(&mut self.blocks, &self.store, &self.roots, last);
        Ok(id)
    }

    /// Adds the waiting root of a lot. Its number is none of a node that went since the mark, if one stands. Takes memory.
    pub fn add_lot(&mut self, lot: &Lot, symbols: &mut Symbols) -> Result<NodeId, NoMemory>
        requires new { HasNoLot self.old lot.now.name }
        requires scope { IsOk (root_scope lot.now) }
        ensures fresh { IfOk result (λ id. node_at self.old id ≡ None) }
        ensures unmarked { IfOk result (λ id. marked_at self.old id ≡ None) }
        ensures root { IfOk result (λ id. (n : Node) × IsRootNode symbols.old lot.now n × (node_at self.new id ≡ Some (record { node = n; depth = 0; parent = None; index = 0; children = [] }))) }
        ensures others { IfOk result (λ id. (other : ℕ) → other ≢ id → node_at self.new other ≡ node_at self.old other) }
        ensures mark { KeepsMark self.old self.new }
        ensures numbers { KeepsNumbers self.old self.new }
        ensures mode { self.new.mode ≡ self.old.mode }
        ensures err { OnErr result (self.new ≡ self.old) }
        ensures symbols { symbols.new ≡ symbols.old }
    {
        let node = root_node(self.alloc, lot, symbols)?;
        let root = self.add_root(node)?;
        Ok(NodeId::new(root as u64))
    }

    /// Takes the nodes of the lot of that name away. False if and only if no such lot is there. While a mark stands, their
    /// numbers aren't given out again, also those of nodes that were created after the mark.
    pub fn remove_lot(&mut self, name: Name) -> bool
        ensures absent { result ≡ false → HasNoLot self.old name }
        ensures same { result ≡ false → self.new ≡ self.old }
        ensures there { result ≡ true → (root : ℕ) × IsRootOf (node_at self.old) name root × IsWithout self.old self.new root }
        ensures mark { KeepsMark self.old self.new }
        ensures numbers { KeepsNumbers self.old self.new }
        ensures mode { self.new.mode ≡ self.old.mode }
    {
        match self.roots.take_out(name) {
            Some((place, root)) => {
                self.roots.settle_unless(self.marking);
                cover_place(&mut self.blocks, &self.store, &self.roots, place);
                set_aside(&mut self.store, root, LEVELS);
                if !self.marking {
                    self.store.settle();
                }
                true
            }
            None => false,
        }
    }
}
