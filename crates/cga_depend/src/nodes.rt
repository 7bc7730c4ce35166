ghost use Rattle.std.specs.Prelude.{◌≡◌, true, false, nat_eq, OnOk, OnErr, [], ◌∷◌};
ghost use Rattle.std.specs.List.{list_any, IsDistinct};
ghost use Rattle.std.specs.List.Sorted.{IsPermutation};
ghost use Rattle.cga_depend.specs.Pairs.{with_node};

use cga_fraction::NoMemory;
use cga_index::NodeId;
use indexmap::IndexSet;
use std::alloc::Global;
use std::marker::Model;

/// Nodes, each once, in no order that means anything. One is found by its number without a walk.
#[derive(Drop)]
pub struct Nodes {
    list: Vec<NodeId>,
    numbers: IndexSet<u64>,
}

impl Model for Nodes {
    ghost use Rattle.std.specs.Prelude.{◌≡◌, ℕ, List};
    ghost use Rattle.std.specs.Coded.{coded_list, coded_ℕ};

    ghost Value = { List ℕ };

    ghost coded = { coded_list coded_ℕ };

    ghost view = { λ n. n.list.items };

    ghost invariant = { λ n. n.numbers.keys ≡ n.list.items };
}

impl Nodes {
    /// Takes no memory.
    pub fn new(alloc: Global) -> Nodes
        ensures { result ≡ [] }
    {
        Nodes {
            list: Vec::new(alloc),
            numbers: IndexSet::new(alloc),
        }
    }

    pub fn as_slice(&self) -> &[NodeId]
        ensures nodes { result.now ≡ self.now }
        ensures once { IsDistinct nat_eq self.now }
    {
        let _numbers = self.numbers.as_slice(); // for the proof
        self.list.as_slice()
    }

    /// Adds a node, where it isn't there. Takes memory.
    pub fn add(&mut self, node: NodeId) -> Result<(), NoMemory>
        ensures ok { OnOk result (self.new ≡ with_node self.old node) }
        ensures err { OnErr result (self.new ≡ self.old) }
    {
        self.list.reserve(1)?;
        if self.numbers.insert(node.number())? {
            self.list.push_reserved(node);
        }
        Ok(())
    }

    /// Takes a node out, where it is there.
    pub fn remove(&mut self, node: NodeId) -> bool
        ensures found { result ≡ list_any (nat_eq node) self.old }
        ensures gone { result ≡ true → IsPermutation self.old (node ∷ self.new) }
        ensures same { result ≡ false → self.new ≡ self.old }
    {
        match self.numbers.swap_remove_full(&node.number()) {
            Some((place, _)) => {
                self.list.swap_remove(place);
                true
            }
            None => false,
        }
    }
}
