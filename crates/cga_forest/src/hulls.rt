//! Hulls of nodes, brought up to date from those of their children.
ghost use Rattle.std.specs.Prelude.{IsSome, true, ◌≢◌, ◌≡◌, ◌<◌, ℕ, length, slice_get, Some, None, is_some};
ghost use Rattle.cga_kept_hulls.specs.declared.hulls.Hulls.{Hulls};
ghost use Rattle.cga_kept_hulls.specs.Hull.{at_hulls, holds_hulls, over, with_hulls};
ghost use Rattle.cga_forest.specs.declared.hulls_due.HullsDue.TheVariants.{Changed};
ghost use Rattle.cga_forest.specs.declared.slot_entry.SlotEntry.{SlotEntry as Kept};
ghost use Rattle.cga_forest.specs.HullsDue.{HoldsAll, grown_of};
ghost use Rattle.cga_forest.specs.Hull.{own_hulls};
ghost use Rattle.cga_forest.specs.View.{at, present_of, marked_of, hulls_of, marked_hulls_of};
ghost use Rattle.cga_forest.specs.Tree.{AllRight, RightBut, IsDue, depth_at, hulls_now, hulls_next, above};
ghost use Rattle.cga_tree.specs.Tree.{IsTree};

use crate::hulls_due::HullsDue;
use crate::slot_entry::SlotEntry;
use crate::slots::parent_at;
use crate::store::{Store, set_hulls};
use cga_kept_hulls::{Hulls, Spares};

/// A node of so few children isn't looked at by some of them first.
const FEW: usize = 8;

/// Takes the hulls of a node into others, where it is there.
fn join_hulls(store: &Store, id: usize, hulls: &mut Hulls)
    ensures { hulls.new ≡ with_hulls hulls.old (hulls_of (at store.now id)) }
{
    if let Some(entry) = store.get(id) {
        entry.hulls.join(&entry.node.shape.scope, hulls);
    }
}

/// Takes those of each of these nodes in.
fn join_all(store: &Store, ids: &[usize], hulls: &mut Hulls)
    ensures { hulls.new ≡ over (λ c. hulls_of (at store.now c)) hulls.old ids.now (length ids.now) }
{
    for place in 0..ids.len() {
        join_hulls(store, ids[place], hulls);
    }
}

/// A node's hulls, from its content and its children's hulls.
fn hulls_over(store: &Store, id: usize) -> Option<Hulls>
    ensures { result ≡ hulls_now (λ c. hulls_of (at store.now c)) (at store.now id) }
{
    let entry = store.get(id)?;
    let mut hulls = entry.node.own_hulls();
    join_all(store, entry.children.as_slice(), &mut hulls);
    Some(hulls)
}

fn hulls_at(store: &Store, id: usize) -> Option<Hulls>
    ensures { result ≡ hulls_of (at store.now id) }
{
    match store.get(id) {
        Some(entry) => Some(entry.known_hulls()),
        None => None,
    }
}

/// The hulls that a node gets: its old ones with those of the child that grew, or else from all its children.
fn next_hulls(store: &Store, id: usize, due: &HullsDue) -> Option<Hulls>
    ensures { result ≡ hulls_next (λ c. hulls_of (at store.now c)) (at store.now id) (grown_of due.now) }
{
    match due {
        HullsDue::Grown(grown) => match store.get(id) {
            Some(entry) => Some(entry.known_hulls().with(&Some(*grown))),
            None => None,
        },
        HullsDue::All | HullsDue::Changed(_, _) => hulls_over(store, id),
    }
}

/// Takes the hulls of the child at a place in, where one is there.
fn join_at(store: &Store, children: &[usize], place: usize, hulls: &mut Hulls)
    ensures { hulls.new ≡ with_hulls hulls.old (at_hulls (λ c. hulls_of (at store.now c)) (slice_get children.now place)) }
{
    if let Some(child) = children.get(place) {
        join_hulls(store, *child, hulls);
    }
}

/// Whether the hulls of a node and of four of its children hold these: of the first and the last, which often stand
/// outermost, of the one at a place, and of the next one, whose turn comes later.
fn some_hold(store: &Store, entry: &SlotEntry, place: usize, old: &Hulls) -> bool
    ensures { result ≡ true → holds_hulls (over (λ c. hulls_of (at store.now c)) (own_hulls entry.now.node) entry.now.children.items (length entry.now.children.items)) old.now ≡ true }
{
    let children = entry.children.as_slice();
    if children.len() <= FEW {
        return false;
    }
    let mut hulls = entry.node.own_hulls();
    join_at(store, children, 0, &mut hulls);
    join_at(store, children, children.len() - 1, &mut hulls);
    join_at(store, children, place, &mut hulls);
    join_at(store, children, place.saturating_add(1), &mut hulls);
    hulls.holds(old)
}

/// Whether a node's hulls are right still, though those of one child changed: where they hold the new ones, a few children
/// tell it mostly, and the others needn't be looked at.
fn are_kept(store: &Store, id: usize, due: &HullsDue, old: &Hulls) -> bool
    ensures { result ≡ true → (place : ℕ) × (k : Hulls) × (due.now ≡ Changed place k) × (holds_hulls old.now k ≡ true) × ((e : Kept) → at store.now id ≡ Some e
        → holds_hulls (over (λ c. hulls_of (at store.now c)) (own_hulls e.node) e.children.items (length e.children.items)) old.now ≡ true) }
{
    match due {
        HullsDue::Changed(place, hulls) => match store.get(id) {
            Some(entry) => old.holds(hulls) && some_hold(store, entry, *place, old),
            None => false,
        },
        HullsDue::All | HullsDue::Grown(_) => false,
    }
}

/// Whether hulls hold those of a node, where it is there.
fn holds_at(store: &Store, id: usize, hulls: &Hulls) -> bool
    ensures { result ≡ true → (h : Hulls) → hulls_of (at store.now id) ≡ Some h → holds_hulls hulls.now h ≡ true }
{
    match store.get(id) {
        Some(entry) => entry.hulls.lie_in(&entry.node.shape.scope, hulls),
        None => true,
    }
}

/// Whether they hold those of each of these nodes.
fn hold_each(store: &Store, ids: &[usize], hulls: &Hulls) -> bool
    ensures { result ≡ true → (i k : ℕ) (h : Hulls) → slice_get ids.now i ≡ Some k → hulls_of (at store.now k) ≡ Some h → holds_hulls hulls.now h ≡ true }
{
    for index in 0..ids.len() {
        if !holds_at(store, ids[index], hulls) {
            return false;
        }
    }
    true
}

/// Whether a node's hulls are right still, though its children are others: where they are those of its own box alone and
/// hold each child's, as most do.
fn are_own(store: &Store, id: usize, due: &HullsDue, old: &Hulls) -> bool
    requires { hulls_of (at store.now id) ≡ Some old.now }
    ensures { result ≡ true → (e : Kept) → at store.now id ≡ Some e
        → (holds_hulls old.now (over (λ c. hulls_of (at store.now c)) (own_hulls e.node) e.children.items (length e.children.items)) ≡ true)
        × (holds_hulls (over (λ c. hulls_of (at store.now c)) (own_hulls e.node) e.children.items (length e.children.items)) old.now ≡ true) }
{
    match (due, store.get(id)) {
        (HullsDue::All, Some(entry)) => {
            entry.has_own_hulls() && hold_each(store, entry.children.as_slice(), old)
        }
        _ => false,
    }
}

/// At which place of its parent's children a node stands.
fn place_at(store: &Store, id: usize) -> usize {
    match store.get(id) {
        Some(entry) => match entry.node.shape.path.as_slice().last() {
            Some(index) => *index as usize,
            None => 0,
        },
        None => 0,
    }
}

/// Brings the hulls up to date from a node upwards, until they are as before, where all others are right. Answers the root,
/// where its hulls changed.
pub fn refresh(
    store: &mut Store,
    spares: &mut Spares,
    id: usize,
    marking: bool,
    due: HullsDue,
) -> Option<usize>
    requires tree { IsTree (λ c. present_of (at store.old c)) }
    requires here { IsSome (present_of (at store.old id)) }
    requires right { RightBut (λ c. present_of (at store.old c)) (λ c. hulls_of (at store.old c)) id }
    requires due { IsDue (λ c. present_of (at store.old c)) (λ c. hulls_of (at store.old c)) id (grown_of due) }
    requires within { HoldsAll (λ c. present_of (at store.old c)) (λ c. hulls_of (at store.old c)) id due }
    requires spares { depth_at (at store.old id) < length spares.old.boxes.items }
    ensures present { (c : ℕ) → present_of (at store.new c) ≡ present_of (at store.old c) }
    ensures marked { (c : ℕ) → marked_of (at store.new c) ≡ marked_of (at store.old c) }
    ensures marked_hulls { marking ≡ true → (c : ℕ) → marked_hulls_of (at store.new c) ≡ marked_hulls_of (at store.old c) }
    ensures taken { (c : ℕ) → is_some (at store.new c) ≡ is_some (at store.old c) }
    ensures right { AllRight (λ c. present_of (at store.new c)) (λ c. hulls_of (at store.new c)) }
    ensures others { (c : ℕ) → above (present_of (at store.old c)) ≡ None → result ≢ Some c → hulls_of (at store.new c) ≡ hulls_of (at store.old c) }
{
    if let Some(old) = hulls_at(store, id) {
        if are_own(store, id, &due, &old) {
            return None;
        }
        if are_kept(store, id, &due, &old) {
            return None;
        }
        if let Some(new) = next_hulls(store, id, &due) {
            if !new.is_like(&old) {
                let above = HullsDue::above(&new, &old, place_at(store, id));
                set_hulls(store, id, marking, new, spares.take());
                if let Some(parent) = parent_at(store, id) {
                    return refresh(store, spares, parent, marking, above);
                }
                return Some(id);
            }
        }
    }
    None
}
