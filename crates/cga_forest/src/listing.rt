//! Which nodes lie below a node, and which go and come where its children are replaced, as lists.
ghost use Rattle.std.specs.Prelude.{◌≡◌, ◌≤◌, ◌<◌, ◌+◌, ◌++◌, ◌∷◌, [], length, slice_get, OnOk};
ghost use Rattle.cga_forest.specs.View.{at, kids};
ghost use Rattle.cga_forest.specs.Tree.{stay_of};
ghost use Rattle.cga_forest.specs.Gathered.{below, coming, found, going, is_come};

use crate::node::Node;
use crate::node_change::NodeChange;
use crate::slots::{child_at, stays};
use crate::store::{Store, child_count};
use cga_fraction::NoMemory;

fn list_one(store: &Store, id: usize, list: &mut Vec<NodeChange>) -> Result<(), NoMemory>
    ensures { OnOk result (list.new.items ≡ list.old.items ++ found (λ c. at store.now c) (id ∷ [])) }
{
    if let Some(entry) = store.get(id) {
        list.push(NodeChange::of(id, &entry.node))?;
    }
    Ok(())
}

/// Adds a node and all below it to a list.
pub fn list_below(
    store: &Store,
    id: usize,
    left: usize,
    list: &mut Vec<NodeChange>,
) -> Result<(), NoMemory>
    ensures { OnOk result (list.new.items ≡ list.old.items ++ found (λ c. at store.now c) (below (λ d. kids (at store.now d)) left id)) }
{
    if left > 0 {
        list_one(store, id, list)?;
        for place in 0..child_count(store, id) {
            if let Some(child) = child_at(store, id, place) {
                list_below(store, child, left - 1, list)?;
            }
        }
    }
    Ok(())
}

/// Adds the children that don't stay, and all below them.
pub fn list_going(
    store: &Store,
    id: usize,
    left: usize,
    news: &[Node],
    list: &mut Vec<NodeChange>,
) -> Result<(), NoMemory>
    ensures { OnOk result (list.new.items ≡ list.old.items
        ++ found (λ c. at store.now c) (going (λ d. kids (at store.now d)) left (λ k w. stay_of (at store.now k) w)
        (kids (at store.now id)) news.now (length (kids (at store.now id))))) }
{
    for place in 0..child_count(store, id) {
        if let Some(child) = child_at(store, id, place) {
            if !stays(store, child, news, place) {
                list_below(store, child, left, list)?;
            }
        }
    }
    Ok(())
}

/// Adds a node, if it is there. The room is there already.
fn list_reserved(store: &Store, id: usize, list: &mut Vec<NodeChange>)
    requires room { length list.old.items < list.old.cap }
    ensures items { list.new.items ≡ list.old.items ++ found (λ c. at store.now c) (id ∷ []) }
    ensures longer { length list.new.items ≤ length list.old.items + 1 }
    ensures cap { list.new.cap ≡ list.old.cap }
{
    if let Some(entry) = store.get(id) {
        list.push_reserved(NodeChange::of(id, &entry.node));
    }
}

/// Whether a child is no old one at its place.
fn comes(store: &Store, id: usize, place: usize, child: usize) -> bool
    ensures { result ≡ is_come (slice_get (kids (at store.now id)) place) child }
{
    match child_at(store, id, place) {
        Some(old) => old != child,
        None => true,
    }
}

/// Adds those of a node's new children that are no old ones at their places. The room is there already.
pub fn list_coming(store: &Store, id: usize, children: &[usize], list: &mut Vec<NodeChange>)
    requires room { length list.old.items + length children.now ≤ list.old.cap }
    ensures { list.new.items ≡ list.old.items ++ found (λ c. at store.now c) (coming (kids (at store.now id)) children.now (length children.now)) }
{
    for place in 0..children.len() {
        let child = children[place];
        if comes(store, id, place, child) {
            list_reserved(store, child, list);
        }
    }
}
