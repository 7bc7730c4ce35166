ghost use Rattle.std.specs.Prelude.{IfSome, IsSome, [], true, false, ◌≢◌, ◌≡◌, ◌<◌, ◌≤◌, ◌+◌, ◌-◌, ◌++◌, ℕ, length, IfOk, OnOk, OnErr, slice_get, Some, None, is_some, option_copied};
ghost use Rattle.cga_index.specs.declared.limits.TheConstants.{MOST_DEPTH};
ghost use Rattle.cga_forest.specs.View.{Seen, at, HasRoom, KeepsRoom, present_of, marked_of, hulls_of, marked_hulls_of, keeps_former, kids, flag_if};
ghost use Rattle.cga_forest.specs.Tree.{IsWhole, HasInner, ReplacedBy, IsAt, IsPlaced, depth_at, parent_of, under, goes, stay_of, stay_child};
ghost use Rattle.cga_forest.specs.declared.node.Node.{Node};
ghost use Rattle.cga_forest.specs.Gathered.{coming, found};
ghost use Rattle.cga_forest.specs.NodeChange.{is_listed};
ghost use Rattle.cga_forest.specs.Numbers.{StaysTaken};

use crate::hulls::refresh;
use crate::hulls_due::HullsDue;
use crate::listing::list_coming;
use crate::node::Node;
use crate::node_change::NodeChange;
use crate::plan::Plan;
use crate::replacement::Replacement;
use crate::store::{Store, add_node, child_count, flag, rewrite};
use cga_kept_hulls::Spares;
use std::alloc::Global;

pub fn child_at(store: &Store, id: usize, place: usize) -> Option<usize>
    ensures { result ≡ slice_get (kids (at store.now id)) place }
{
    match store.get(id) {
        Some(entry) => match entry.children.get(place) {
            Some(child) => Some(*child),
            None => None,
        },
        None => None,
    }
}

pub fn set_aside(store: &mut Store, id: usize, left: usize)
    ensures pointwise { (c : ℕ) → at store.new c ≡ flag_if (under (λ d. kids (at store.old d)) left id c) (at store.old c) }
    ensures room { KeepsRoom store.old store.new }
{
    if left > 0 {
        let count = flag(store, id);
        for place in 0..count {
            if let Some(child) = child_at(store, id, place) {
                set_aside(store, child, left - 1);
            }
        }
    }
}

/// Whether a child stays where this content is asked for.
pub fn fits_child(store: &Store, child: usize, new: &Node) -> bool
    ensures { result ≡ stay_of (at store.now child) (Some new.now) }
{
    match store.get(child) {
        Some(entry) => entry.node.fits(new),
        None => false,
    }
}

/// Whether a child stays, by what is asked for at its place.
pub fn stays(store: &Store, child: usize, news: &[Node], place: usize) -> bool
    ensures { result ≡ stay_of (at store.now child) (slice_get news.now place) }
{
    match news.get(place) {
        Some(new) => fits_child(store, child, new),
        None => false,
    }
}

/// Sets aside the nodes of a list.
fn set_aside_all(store: &mut Store, list: &[NodeChange])
    ensures pointwise { (c : ℕ) → at store.new c ≡ flag_if (is_listed list.now c) (at store.old c) }
    ensures room { KeepsRoom store.old store.new }
{
    for moved in list {
        let _children = flag(store, moved.id.number() as usize);
    }
}

/// The child at a place, where it stays.
pub fn staying(store: &Store, id: usize, place: usize, new: &Node) -> Option<usize>
    ensures { result ≡ stay_child (λ k. at store.now k) (slice_get (kids (at store.now id)) place) new.now }
{
    let child = child_at(store, id, place)?;
    if fits_child(store, child, new) {
        Some(child)
    } else {
        None
    }
}

/// Makes the list of a node's new children: an old child stays where it has the new one's content, and any other comes.
pub fn place_children(
    store: &mut Store,
    alloc: Global,
    id: usize,
    marking: bool,
    news: Vec<Node>,
    made: &mut Vec<usize>,
)
    requires room { HasRoom store.old (length news.items) }
    requires empty { made.old.items ≡ [] }
    requires space { length news.items ≤ made.old.cap }
    requires here { IsSome (at store.old id) }
    requires kids { (i k : ℕ) → slice_get (kids (at store.old id)) i ≡ Some k → IsSome (at store.old k) }
    requires paths { (i : ℕ) (w : Node) → slice_get news.items i ≡ Some w → IsAt (depth_at (at store.old id) + 1) i w }
    ensures placed { IsPlaced (λ c. at store.old c) (λ c. at store.new c) id (depth_at (at store.old id) + 1) marking (kids (at store.old id)) news.items made.new.items }
    ensures length { length made.new.items ≡ length news.items }
{
    for new in news {
        let place = made.len();
        let child = match staying(store, id, place, &new) {
            Some(child) => {
                drop(new);
                child
            }
            None => add_node(store, alloc, marking, new, Some(id)),
        };
        made.push_reserved(child);
    }
}

pub fn depth_of(store: &Store, id: usize) -> usize
    ensures { result ≡ depth_at (at store.now id) }
{
    match store.get(id) {
        Some(entry) => entry.node.shape.path.len(),
        None => 0,
    }
}

pub fn parent_at(store: &Store, id: usize) -> Option<usize>
    ensures { result ≡ parent_of (at store.now id) }
{
    match store.get(id) {
        Some(entry) => entry.parent,
        None => None,
    }
}

/// Gives a node another state and other children, by a plan, and lists in it the created nodes. The room is there already. Answers
/// the root, where its hulls changed.
pub fn replace(
    store: &mut Store,
    spares: &mut Spares,
    alloc: Global,
    id: usize,
    marking: bool,
    new: Replacement,
    plan: &mut Plan,
) -> Option<usize>
    requires room { HasRoom store.old (length new.news.items) }
    requires listed { length plan.old.created.items + length new.news.items ≤ plan.old.created.cap }
    requires removed { (c : ℕ) → is_listed plan.old.removed.items c ≡ goes (λ d. kids (at store.old d))
        (MOST_DEPTH - depth_at (at store.old id)) (λ k w. stay_of (at store.old k) w) (kids (at store.old id))
        new.news.items (length (kids (at store.old id))) c }
    requires empty { new.made.items ≡ [] }
    requires space { length new.news.items ≤ new.made.cap }
    requires whole { IsWhole (λ c. present_of (at store.old c)) (λ c. hulls_of (at store.old c)) }
    requires here { HasInner (present_of (at store.old id)) new.state new.news.items }
    requires spare { keeps_former marking (at store.old id) ≡ true → is_some new.spare ≡ true }
    requires spares { depth_at (at store.old id) < length spares.old.boxes.items }
    ensures whole { IsWhole (λ c. present_of (at store.new c)) (λ c. hulls_of (at store.new c)) }
    ensures replaced { ReplacedBy (λ c. present_of (at store.old c)) (λ c. present_of (at store.new c)) id
        new.state new.news.items (λ c. goes (λ d. kids (at store.old d)) (MOST_DEPTH - depth_at (at store.old id))
        (λ k w. stay_of (at store.old k) w) (kids (at store.old id)) new.news.items (length (kids (at store.old id))) c) }
    ensures vacant { (c : ℕ) (d : Seen) → present_of (at store.old c) ≡ None → present_of (at store.new c) ≡ Some d → at store.old c ≡ None }
    ensures taken { (c : ℕ) → StaysTaken (at store.old c) (at store.new c) }
    ensures marked { marking ≡ true → (c : ℕ) → marked_of (at store.new c) ≡ marked_of (at store.old c) }
    ensures marked_hulls { marking ≡ true → (c : ℕ) → marked_hulls_of (at store.new c) ≡ marked_hulls_of (at store.old c) }
    ensures others { (c : ℕ) (d : Seen) → present_of (at store.old c) ≡ Some d → d.parent ≡ None → result ≢ Some c → hulls_of (at store.new c) ≡ hulls_of (at store.old c) }
    ensures removed { plan.new.removed.items ≡ plan.old.removed.items }
    ensures created { plan.new.created.items ≡ plan.old.created.items ++ found (λ c. at store.new c) (coming (kids (at store.old id)) (kids (at store.new id)) (length (kids (at store.new id)))) }
{
    let Replacement {
        state,
        news,
        mut made,
        spare,
    } = new;
    set_aside_all(store, plan.removed.as_slice());
    place_children(store, alloc, id, marking, news, &mut made);
    list_coming(store, id, made.as_slice(), &mut plan.created);
    rewrite(store, id, marking, state, made, spare);
    refresh(store, spares, id, marking, HullsDue::All)
}
