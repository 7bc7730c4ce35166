//! How the blocks are kept up with the roots.
ghost use Rattle.std.specs.Prelude.{◌≡◌, ◌≤◌, ◌<◌, ◌+◌, ◌*◌, ◌/◌, ◌^◌, ℕ, Some, length, slice_get, true};
ghost use Rattle.cga_forest.specs.Blocks.{AreCovered, AreCoveredBut, IsCovered};
ghost use Rattle.cga_kept_hulls.specs.Blocks.{StaysHeld};
ghost use Rattle.cga_forest.specs.Roots.{HasRoots};
ghost use Rattle.cga_marked.specs.Map.{ids};
ghost use Rattle.cga_forest.specs.View.{at, hulls_of, present_of};

use crate::store::Store;
use cga_index::{BLOCK, GROUP};
use cga_kept_hulls::Blocks;
use cga_marked::MarkedMap;

/// Takes the hulls of the root at a place into its block and its group.
pub fn cover_place(blocks: &mut Blocks, store: &Store, roots: &MarkedMap, place: usize)
    ensures here { IsCovered blocks.new roots.now.list (λ c. hulls_of (at store.now c)) place }
    ensures kept { StaysHeld blocks.old blocks.new }
{
    if place < roots.len() {
        if let Some(entry) = store.get(roots.id(place)) {
            blocks.join(place, &entry.known_hulls());
        }
    }
}

/// Takes the hulls of the roots at places in a row into their blocks and groups.
fn cover_places(blocks: &mut Blocks, store: &Store, roots: &MarkedMap, from: usize, to: usize)
    ensures here { (place : ℕ) → from ≤ place → place < to → IsCovered blocks.new roots.now.list (λ c. hulls_of (at store.now c)) place }
    ensures kept { StaysHeld blocks.old blocks.new }
{
    for place in from..to {
        cover_place(blocks, store, roots, place);
    }
}

/// Makes all blocks again.
pub fn cover_all(blocks: &mut Blocks, store: &Store, roots: &MarkedMap)
    ensures { AreCovered blocks.new roots.now.list (λ c. hulls_of (at store.now c)) }
{
    blocks.clear();
    cover_places(blocks, store, roots, 0, roots.len());
    blocks.rest();
}

/// Makes a block again.
fn renew(blocks: &mut Blocks, store: &Store, roots: &MarkedMap, block: usize)
    requires { AreCovered blocks.old roots.now.list (λ c. hulls_of (at store.now c)) }
    ensures { AreCovered blocks.new roots.now.list (λ c. hulls_of (at store.now c)) }
{
    let count = roots.len();
    if block <= count / BLOCK {
        blocks.empty(block);
        let from = BLOCK * block;
        let to = if count - from < BLOCK {
            count
        } else {
            from + BLOCK
        };
        cover_places(blocks, store, roots, from, to);
    }
}

/// Makes those blocks of a group again that took hulls in. Answers whether there were some.
fn renew_loose(blocks: &mut Blocks, store: &Store, roots: &MarkedMap, group: usize) -> bool
    requires group { BLOCK * group + BLOCK < 2 ^ 64 }
    requires covered { AreCovered blocks.old roots.now.list (λ c. hulls_of (at store.now c)) }
    ensures { AreCovered blocks.new roots.now.list (λ c. hulls_of (at store.now c)) }
{
    let mut some = false;
    for block in BLOCK * group..BLOCK * group + BLOCK {
        if blocks.is_loose(block) {
            renew(blocks, store, roots, block);
            some = true;
        }
    }
    some
}

/// Makes those blocks of a group again that took hulls in, and then the group of its blocks.
#[tactic(auto, using(crate::proofs::Covered::covered_gathered))]
fn tighten_group(blocks: &mut Blocks, store: &Store, roots: &MarkedMap, group: usize)
    requires group { BLOCK * group + BLOCK < 2 ^ 64 }
    requires covered { AreCovered blocks.old roots.now.list (λ c. hulls_of (at store.now c)) }
    ensures { AreCovered blocks.new roots.now.list (λ c. hulls_of (at store.now c)) }
{
    if renew_loose(blocks, store, roots, group) && blocks.reaches(roots.len()) {
        blocks.gather(group);
    }
}

/// Makes the blocks again that took hulls in, and their groups, so that they hold no more than they have to. Each other
/// block is asked for its note alone.
pub fn tighten(blocks: &mut Blocks, store: &Store, roots: &MarkedMap)
    requires { AreCovered blocks.old roots.now.list (λ c. hulls_of (at store.now c)) }
    ensures { AreCovered blocks.new roots.now.list (λ c. hulls_of (at store.now c)) }
{
    for group in 0..roots.len() / GROUP + 1 {
        tighten_group(blocks, store, roots, group);
    }
    blocks.rest();
}

/// The place of a root.
fn root_place(store: &Store, roots: &MarkedMap, root: usize) -> Option<usize>
    requires tops { HasRoots (λ c. present_of (at store.now c)) roots.now.list }
    ensures { (place : ℕ) → slice_get (ids roots.now.list) place ≡ Some root → result ≡ Some place }
{
    let entry = store.get(root)?;
    let (place, _) = roots.place_and_id(entry.node.lot())?;
    Some(place)
}

/// Takes the hulls of a root into its block, where they changed.
pub fn cover_root(blocks: &mut Blocks, store: &Store, roots: &MarkedMap, changed: Option<usize>)
    requires tops { HasRoots (λ c. present_of (at store.now c)) roots.now.list }
    requires others { AreCoveredBut changed blocks.old roots.now.list (λ c. hulls_of (at store.now c)) }
    ensures { AreCovered blocks.new roots.now.list (λ c. hulls_of (at store.now c)) }
{
    if let Some(root) = changed {
        if let Some(place) = root_place(store, roots, root) {
            cover_place(blocks, store, roots, place);
        }
    }
}
