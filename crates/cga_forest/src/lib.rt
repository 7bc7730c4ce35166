//! The kept forest: the shapes of a city as nodes under numbers, each with the least box that holds it and all below
//! it, and a mark to which all can be taken back.
//!
//! It must not know how a shape comes about, grammars or edits. It keeps nodes and never expands a shape: what a node's
//! children are it is told.
//!
//! What callers get wrong: a number names a node only while that is there, and says nothing of order; a shape is told
//! by its lot and path.
#![tactic(auto)]

mod below;
mod change;
mod counts;
mod covering;
mod entry_marks;
mod fitting;
mod former;
mod former_box;
mod holds;
mod hull_tree;
mod hulls;
mod hulls_due;
mod listing;
mod lots;
mod mark;
mod new_content;
mod new_hulls;
mod node;
mod node_change;
mod placing;
mod plan;
mod replacement;
mod slot_entry;
mod slots;
mod standing;
mod store;
mod tree_law;

ghost use Rattle.std.specs.Prelude.{◌≡◌, ℕ, false, [], Some, None, IfOk, IfSome, IsSome, option_copied, ◌↔◌, OnOk, OnErr};
ghost use Rattle.cga_order.specs.Chain as order;
ghost use Rattle.cga_order.specs.Seen.{chain_of};
ghost use Rattle.cga_forest.specs.Node.{chain_kept};
ghost use Rattle.cga_forest.specs.Count.{tally};
ghost use Rattle.cga_forest.specs.View.{Seen, is_shown};
ghost use Rattle.cga_forest.specs.NodeChange.{ListsOnlyIn};
ghost use Rattle.cga_forest.specs.Numbers.{KeepsNumbers};
ghost use Rattle.cga_forest.specs.Placing.{MayGrow, children_after, state_after};
ghost use Rattle.cga_forest.specs.Tree.{ForestView, HasInner, content_of, above, IsLeastHull, IsLeastAsking, NoneAsks, Replaces, node_at, marked_at, KeepsMark};

use cga_check::Symbols;
use cga_fraction::{List, NoMemory};
use cga_frame::WorldBox;
use cga_index::{MOST_DEPTH, NodeId};
use cga_kept_hulls::{Blocks, Spares};
use cga_marked::MarkedMap;
use cga_order::Chain;
use cga_shape::{Answers, Emitted, ShapeFault};
use cga_word::Mode;
pub use change::Change;
use covering::cover_root;
pub use node::{Node, NodeState};
pub use node_change::NodeChange;
use placing::{children_after, kind_after};
use plan::Plan;
use replacement::Replacement;
use slots::{depth_of, parent_at, replace};
use std::alloc::Global;
use std::marker::Model;
use store::{Store, spare_for};
pub use tree_law::forests_are_hull_trees;

/// Nodes under numbers, with a way back to a mark.
#[derive(Drop)]
pub struct Forest {
    store: Store,
    roots: MarkedMap,
    blocks: Blocks,
    spares: Spares,
    marking: bool,
    mode: Mode,
    alloc: Global,
}

impl Model for Forest {
    ghost use Rattle.cga_forest.specs.Tree.{ForestView};
    ghost use Rattle.cga_forest.specs.Blocks.{IsWithBlocks};

    ghost Value = { ForestView };

    ghost view = { λ f. record { slots = f.store.slots; marking = f.marking; roots = f.roots.list; marked_roots = f.roots.former; mode = f.mode } };

    ghost invariant = { λ f. IsWithBlocks (record { slots = f.store.slots; marking = f.marking; roots = f.roots.list; marked_roots = f.roots.former; mode = f.mode }) f.blocks };
}

impl Forest {
    pub fn new(alloc: Global, mode: Mode) -> Forest
        ensures { result ≡ record { slots = []; marking = false; roots = []; marked_roots = []; mode = mode } }
    {
        Forest {
            store: Store::new(alloc),
            roots: MarkedMap::new(alloc),
            blocks: Blocks::new(alloc),
            spares: Spares::new(alloc),
            marking: false,
            mode,
            alloc,
        }
    }

    /// How many nodes there are.
    pub fn count(&self) -> usize
        ensures { result ≡ tally is_shown self.now.slots }
    {
        self.store.shown()
    }

    /// None if and only if there is none.
    pub fn node(&self, id: NodeId) -> Option<&Node>
        ensures { option_copied result ≡ content_of (node_at self.now id) }
    {
        match self.store.get(slot_of(id)) {
            Some(entry) => { if entry.aside { None } else { Some(&entry.node) } }
            None => None,
        }
    }

    /// The node of an id that is there.
    pub fn node_of(&self, id: NodeId) -> &Node
        requires here { IsSome (node_at self.now id) }
        ensures { Some result.now ≡ content_of (node_at self.now id) }
    {
        &self.store.entry(slot_of(id)).node
    }

    /// The order in which its shapes were expanded.
    pub fn mode(&self) -> Mode
        ensures { result ≡ self.now.mode }
    {
        self.mode
    }

    /// Where a node stands, with the priorities kept on the way there.
    pub fn chain(&self, id: NodeId) -> Chain<'_>
        requires here { IsSome (node_at self.now id) }
        ensures value { IfSome (node_at self.now id) (λ d. chain_of result ≡ chain_kept d.node) }
        ensures whole { order.IsWhole (chain_of result) }
    {
        self.store.entry(slot_of(id)).node.chain()
    }

    /// None exactly for a root.
    pub fn parent(&self, id: NodeId) -> Option<NodeId>
        requires here { IsSome (node_at self.now id) }
        ensures { result ≡ above (node_at self.now id) }
    {
        match parent_at(&self.store, slot_of(id)) {
            Some(parent) => Some(NodeId::new(parent as u64)),
            None => None,
        }
    }

    /// The least box that holds the boxes of a node and of all below it.
    pub fn hull(&self, id: NodeId) -> WorldBox
        requires here { IsSome (node_at self.now id) }
        ensures least { IsLeastHull self.now id result }
    {
        let entry = self.store.entry(slot_of(id));
        entry.hulls.hull(&entry.node.shape.scope)
    }

    /// The least box that holds the boxes of those that ask, of a node and of all below it. None if nobody asks.
    pub fn asking_hull(&self, id: NodeId) -> Option<WorldBox>
        requires here { IsSome (node_at self.now id) }
        ensures least { IfSome result (λ h. IsLeastAsking self.now id h) }
        ensures none { (result ≡ None) ↔ NoneAsks self.now id }
    {
        let entry = self.store.entry(slot_of(id));
        entry.hulls.asking_hull(&entry.node.shape.scope)
    }

    /// Gives a node the outcome of its expansion and the answers that it was asked with. An old child stays with its
    /// subtree where the new one at its index has its shape, its priority and its sort; all others go. Answers the nodes
    /// that went and those that came, each once. While a mark stands, the number of a node that went isn't given out
    /// again, also where the node came after the mark. Takes memory.
    pub fn replace_children(
        &mut self,
        node: NodeId,
        answers: Answers,
        outcome: &Result<List<Emitted>, ShapeFault>,
        symbols: &mut Symbols,
    ) -> Result<Change, NoMemory>
        requires here { (e : Seen) × (node_at self.old node ≡ Some e) × MayGrow e outcome.now }
        ensures replaced { OnOk result ((e : Seen) → node_at self.old node ≡ Some e
            → Replaces (node_at self.old) (node_at self.new) node
            (state_after symbols.old e.node answers outcome.now) (children_after symbols.old e.node outcome.now)) }
        ensures unmarked { OnOk result ((c : ℕ) → node_at self.old c ≡ None → IsSome (node_at self.new c) → marked_at self.old c ≡ None) }
        ensures removed { IfOk result (λ change. ListsOnlyIn (node_at self.old) (node_at self.new) change.removed) }
        ensures created { IfOk result (λ change. ListsOnlyIn (node_at self.new) (node_at self.old) change.created) }
        ensures mark { KeepsMark self.old self.new }
        ensures numbers { KeepsNumbers self.old self.new }
        ensures mode { self.new.mode ≡ self.old.mode }
        ensures err { OnErr result (self.new ≡ self.old) }
        ensures symbols { symbols.new ≡ symbols.old }
    {
        let id = slot_of(node);
        let parent = &self.store.entry(id).node;
        let said = symbols.of(parent.shape.symbol)?;
        let news = children_after(self.alloc, parent, outcome, symbols)?;
        let state = NodeState {
            kind: kind_after(outcome),
            answers,
            asks: said.asks(),
        };
        self.replace_with(id, state, news)
    }

    /// Gives a node another state and these children.
    fn replace_with(
        &mut self,
        id: usize,
        state: NodeState,
        news: Vec<Node>,
    ) -> Result<Change, NoMemory>
        requires here { HasInner (node_at self.old id) state news.items }
        ensures replaced { OnOk result (Replaces (node_at self.old) (node_at self.new) id state news.items) }
        ensures unmarked { OnOk result ((c : ℕ) → node_at self.old c ≡ None → IsSome (node_at self.new c) → marked_at self.old c ≡ None) }
        ensures removed { IfOk result (λ change. ListsOnlyIn (node_at self.old) (node_at self.new) change.removed) }
        ensures created { IfOk result (λ change. ListsOnlyIn (node_at self.new) (node_at self.old) change.created) }
        ensures mark { KeepsMark self.old self.new }
        ensures numbers { KeepsNumbers self.old self.new }
        ensures mode { self.new.mode ≡ self.old.mode }
        ensures err { OnErr result (self.new ≡ self.old) }
    {
        let spare = spare_for(&self.store, self.alloc, id, self.marking, state)?;
        self.store.reserve(news.len())?;
        let depth = depth_of(&self.store, id);
        self.spares.provide(self.alloc, depth + 1)?;
        let made = Vec::with_capacity(self.alloc, news.len())?;
        let left = MOST_DEPTH - depth;
        let mut plan = Plan::of(&self.store, self.alloc, id, left, news.as_slice())?;
        let changed = replace(
            &mut self.store,
            &mut self.spares,
            self.alloc,
            id,
            self.marking,
            Replacement {
                state,
                news,
                made,
                spare,
            },
            &mut plan,
        );
        cover_root(&mut self.blocks, &self.store, &self.roots, changed);
        if !self.marking {
            self.store.settle();
        }
        Ok(Change {
            removed: List::from_vec(plan.removed),
            created: List::from_vec(plan.created),
        })
    }
}

/// The slot that an id names.
fn slot_of(id: NodeId) -> usize
    ensures { result ≡ id }
{
    id.number() as usize
}
