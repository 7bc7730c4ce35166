ghost use Rattle.std.specs.Prelude.{true, ◌≢◌, ◌≡◌, ◌+◌, ℕ, length, is_some, None, IfOk};
ghost use Rattle.cga_forest.specs.View.{at, HasRoom, KeepsRoom, IsNewEntry, last_from, flag_if, keeps_former, kids, rewritten, rehulled, present_of, marked_of, hulls_of, marked_hulls_of};

use crate::former_box::FormerBox;
use crate::new_content::NewContent;
use crate::new_hulls::NewHulls;
use crate::node::{Node, NodeState};
use crate::slot_entry::SlotEntry;
use cga_fraction::NoMemory;
use cga_kept_hulls::{Hulls, HullsBox, KeptHulls};
use cga_marked::MarkedSlab;
use std::alloc::Global;

/// Entries under numbers, with a list of those that the mark's end has to look at.
pub type Store = MarkedSlab<SlotEntry>;

/// Adds a node without children, for which there is room.
pub fn add_node(
    store: &mut Store,
    alloc: Global,
    marking: bool,
    node: Node,
    parent: Option<usize>,
) -> usize
    requires room { HasRoom store.old 1 }
    ensures vacant { at store.old result ≡ None }
    ensures here { IsNewEntry (at store.new result) parent node (length node.shape.path) (last_from 0 node.shape.path) marking }
    ensures others { (c : ℕ) → c ≢ result → at store.new c ≡ at store.old c }
    ensures room { (more : ℕ) → HasRoom store.old (more + 1) → HasRoom store.new more }
{
    let hulls = KeptHulls::Own(node.asks);
    let entry = SlotEntry {
        node,
        parent,
        children: Vec::new(alloc),
        hulls,
        aside: false,
        created: marking,
        touched: marking,
        former: None,
        former_hulls: None,
    };
    store.add(marking, entry)
}

/// Sets an entry aside, and answers how many children it has.
pub fn flag(store: &mut Store, id: usize) -> usize
    ensures here { at store.new id ≡ flag_if true (at store.old id) }
    ensures others { (c : ℕ) → c ≢ id → at store.new c ≡ at store.old c }
    ensures count { result ≡ length (kids (at store.old id)) }
    ensures room { KeepsRoom store.old store.new }
{
    let count = child_count(store, id);
    store.set_aside(id);
    count
}

pub fn child_count(store: &Store, id: usize) -> usize
    ensures { result ≡ length (kids (at store.now id)) }
{
    match store.get(id) {
        Some(entry) => entry.children.len(),
        None => 0,
    }
}

/// A box for what a node is, where that is to be kept for the mark. Takes memory for it.
pub fn spare_for(
    store: &Store,
    alloc: Global,
    id: usize,
    marking: bool,
    state: NodeState,
) -> Result<Option<FormerBox>, NoMemory>
    ensures { IfOk result (λ spare. keeps_former marking (at store.now id) ≡ true → is_some spare ≡ true) }
{
    match store.get(id) {
        Some(entry) if entry.keeps_former(marking) => Ok(Some(FormerBox::new(alloc, state)?)),
        _ => Ok(None),
    }
}

/// Gives a node another state and other children. Under a mark the first such call of a node that was there at the mark keeps
/// the former ones, in the box.
pub fn rewrite(
    store: &mut Store,
    id: usize,
    marking: bool,
    state: NodeState,
    children: Vec<usize>,
    spare: Option<FormerBox>,
)
    ensures others { (c : ℕ) → c ≢ id → at store.new c ≡ at store.old c }
    ensures present { present_of (at store.new id) ≡ rewritten state children.items (present_of (at store.old id)) }
    ensures marked { marking ≡ true → (keeps_former marking (at store.old id) ≡ true → is_some spare ≡ true) → marked_of (at store.new id) ≡ marked_of (at store.old id) }
    ensures hulls { hulls_of (at store.new id) ≡ hulls_of (at store.old id) }
    ensures marked_hulls { marked_hulls_of (at store.new id) ≡ marked_hulls_of (at store.old id) }
    ensures room { KeepsRoom store.old store.new }
{
    store.change(
        id,
        marking,
        NewContent {
            state,
            children,
            spare,
        },
    );
}

pub fn set_hulls(store: &mut Store, id: usize, marking: bool, hulls: Hulls, spare: HullsBox)
    ensures others { (c : ℕ) → c ≢ id → at store.new c ≡ at store.old c }
    ensures present { present_of (at store.new id) ≡ present_of (at store.old id) }
    ensures marked { marked_of (at store.new id) ≡ marked_of (at store.old id) }
    ensures hulls { hulls_of (at store.new id) ≡ rehulled hulls (hulls_of (at store.old id)) }
    ensures marked_hulls { marking ≡ true → marked_hulls_of (at store.new id) ≡ marked_hulls_of (at store.old id) }
    ensures room { KeepsRoom store.old store.new }
{
    store.change(id, marking, NewHulls { hulls, spare });
}
