//! What a node is to one that asks, told by the stamps of the kept priorities.
ghost use Rattle.std.specs.Prelude.{◌≡◌, ◌↔◌, ℕ, None, Some, MatchOption, IsTrue, false};
ghost use Rattle.cga_order.specs.Chain as order;
ghost use Rattle.cga_order.specs.Seen.{chain_of};
ghost use Rattle.cga_forest.specs.Node.{chain_kept};
ghost use Rattle.cga_forest.specs.Standing.{IsOnPath, StandApart, is_before, exists_at, waits_at, standing_by, standing_of};
ghost use Rattle.cga_forest.specs.Tree.{InPlace};
ghost use Rattle.cga_forest.specs.View.{Seen, at, present_of, seen};
ghost use Rattle.cga_tree.specs.Tree.{IsTree};

use crate::node::Node;
use crate::slot_entry::SlotEntry;
use crate::store::Store;
use cga_index::Standing;
use cga_order::{Chain, Kind, cmp_stamp, same_steps};
use cga_word::Mode;

/// The entry of a node that is there.
pub fn present(store: &Store, id: usize) -> Option<&SlotEntry>
    ensures { MatchOption result (present_of (at store.now id) ≡ None) (λ e. present_of (at store.now id) ≡ Some (seen e.now)) }
{
    match store.get(id) {
        Some(entry) => { if entry.aside { None } else { Some(entry) } }
        None => None,
    }
}

/// Whether a node is another one or an ancestor of it. Lengths and the node's last index tell most strangers apart before
/// lots and paths are looked at.
pub fn is_above(node: &Node, other: &Node) -> bool
    ensures { IsTrue result ↔ IsOnPath node.now other.now }
{
    let path = node.shape.path.as_slice();
    let whole = other.shape.path.as_slice();
    let depth = path.len();
    depth <= whole.len()
        && (depth == 0 || path[depth - 1] == whole[depth - 1])
        && node.shape.lot == other.shape.lot
        && same_steps(&whole[..depth], path)
}

/// Whether a node's stamp comes before another's.
fn is_before(store: &Store, mode: Mode, id: usize, by: &Chain) -> bool
    requires chains { (c : ℕ) (d : Seen) → present_of (at store.now c) ≡ Some d → order.IsWhole (chain_kept d.node) }
    requires by { order.IsWhole (chain_of by.now) }
    ensures { result ≡ is_before mode (present_of (at store.now id)) (chain_of by.now) }
{
    match present(store, id) {
        Some(entry) => cmp_stamp(mode, &entry.node.chain(), by).is_lt(),
        None => false,
    }
}

/// Whether a node of this parent is there at another's stamp.
fn exists_at(store: &Store, mode: Mode, parent: Option<usize>, by: &Chain) -> bool
    requires chains { (c : ℕ) (d : Seen) → present_of (at store.now c) ≡ Some d → order.IsWhole (chain_kept d.node) }
    requires by { order.IsWhole (chain_of by.now) }
    ensures { result ≡ exists_at mode (λ c. present_of (at store.now c)) parent (chain_of by.now) }
{
    match parent {
        Some(parent) => is_before(store, mode, parent, by),
        None => true,
    }
}

/// Whether a node that is there waits at another's stamp.
fn waits_at(mode: Mode, entry: &SlotEntry, by: &Chain) -> bool
    requires own { order.IsWhole (chain_kept entry.now.node) }
    requires by { order.IsWhole (chain_of by.now) }
    ensures { result ≡ waits_at mode (seen entry.now) (chain_of by.now) }
{
    match entry.node.kind {
        Kind::Instance(_) => false,
        Kind::Waiting | Kind::Done | Kind::Faulted(_) => {
            cmp_stamp(mode, by, &entry.node.chain()).is_lt()
        }
    }
}

/// What a node is that isn't hidden.
fn standing_by(waits: bool) -> Standing
    ensures { result ≡ standing_by false waits }
{
    if waits {
        Standing::Waiting
    } else {
        Standing::Finished
    }
}

/// What a node is to another one.
pub fn standing_of(store: &Store, mode: Mode, node: usize, by: usize) -> Standing
    requires tree { IsTree (λ c. present_of (at store.now c)) }
    requires places { InPlace (λ c. present_of (at store.now c)) }
    requires apart { StandApart (λ c. present_of (at store.now c)) }
    ensures { result ≡ standing_of mode (λ c. present_of (at store.now c)) node by (present_of (at store.now node)) (present_of (at store.now by)) }
{
    match (present(store, node), present(store, by)) {
        (Some(entry), Some(asker)) => {
            if is_above(&entry.node, &asker.node) {
                return Standing::Hidden;
            }
            let chain = asker.node.chain();
            if !exists_at(store, mode, entry.parent, &chain) {
                return Standing::Hidden;
            }
            let waits = waits_at(mode, entry, &chain);
            standing_by(waits)
        }
        _ => Standing::Hidden,
    }
}
