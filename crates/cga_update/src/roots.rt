//! The roots that go and come when an edit begins.
ghost use Rattle.std.specs.Prelude.{◌≡◌, ℕ, ◌∷◌, ◌++◌, [], slice_get, Some, None, true, false, IfOk, OnOk, IsOk, length};
ghost use Rattle.std.specs.Option.{option_copied};
ghost use Rattle.cga_expand.specs.Derivation.{priority_of};
ghost use Rattle.cga_forest.specs.NodeChange.{ListsOnlyIn, moved_of};
ghost use Rattle.cga_forest.specs.View.{Seen};
ghost use Rattle.cga_forest.specs.Tree.{node_at};
ghost use Rattle.cga_shape.specs.Root.{root_scope};
ghost use Rattle.cga_update.specs.ChangedLots.{DifferAt};
ghost use Rattle.cga_update.specs.Roots.{AllWanted, AreThere, AreThereBut, AreThereStill, AreWithin, Gains, HasLost, IsLotNamed, IsRootFor, IsRootNamed, IsWanted, Loses, View};

use crate::all_roots::{add_all, remove_all};
use crate::changed_lots::ChangedLots;
use crate::lookup::{lot_at, lot_named};
use crate::renewal::Renewal;
use cga_check::Symbols;
use cga_forest::{Forest, Node, NodeChange};
use cga_fraction::NoMemory;
use cga_index::NodeId;
use cga_shape::{Lot, Sources, equal_exactly, root_shape};
use cga_word::Name;
use std::alloc::Global;

/// Whether a root is that of a lot, with this priority. Takes no memory.
pub fn is_root_for(alloc: Global, root: &Node, lot: &Lot, priority: u16) -> bool
    requires scope { IsOk (root_scope lot.now) }
    ensures sound { result ≡ true → IsRootFor lot.now priority root.now }
    ensures whole { IsRootFor lot.now priority root.now → result ≡ true }
{
    equal_exactly();
    root.priority == priority && root.shape == root_shape(alloc, lot)
}

/// Whether the root of that name is still wanted. Takes memory.
fn is_wanted(
    alloc: Global,
    forest: &Forest,
    lot: Option<&Lot>,
    symbols: &mut Symbols,
    renewal: Renewal,
    name: Name,
) -> Result<bool, NoMemory>
    requires symbols { symbols.old ≡ renewal.new.now.grammar }
    requires lot { IsLotNamed renewal.new.now.lots name (option_copied lot) }
    ensures symbols { symbols.new ≡ symbols.old }
    ensures wanted { IfOk result (λ is. is ≡ true → (c : ℕ) (d : Seen) → IsRootNamed (node_at forest.now) name c d → IsWanted renewal.entry.new.now d.node) }
    ensures unwanted { IfOk result (λ is. is ≡ false → (c : ℕ) (d : Seen) → IsRootNamed (node_at forest.now) name c d → IsWanted renewal.entry.new.now d.node → ⊥) }
{
    forest.laws(); // for the proof
    let Some(lot) = lot else {
        return Ok(false);
    };
    let said = symbols.of(lot.symbol)?;
    match forest.root_of(name) {
        Some(root) => Ok(is_root_at(alloc, forest, root, lot, said.priority)),
        None => Ok(true),
    }
}

/// Whether the node under a number is the root of a lot, with this priority. Takes no memory.
fn is_root_at(alloc: Global, forest: &Forest, id: NodeId, lot: &Lot, priority: u16) -> bool
    requires scope { IsOk (root_scope lot.now) }
    ensures sound { result ≡ true → (d : Seen) → node_at forest.now id ≡ Some d → IsRootFor lot.now priority d.node }
    ensures whole { (d : Seen) → node_at forest.now id ≡ Some d → IsRootFor lot.now priority d.node → result ≡ true }
{
    match forest.node(id) {
        Some(node) => is_root_for(alloc, node, lot, priority),
        None => false,
    }
}

/// Removes the root of that name with all below it, and lists them. Takes memory.
fn remove_root(
    forest: &mut Forest,
    name: Name,
    removed: &mut Vec<NodeChange>,
) -> Result<(), NoMemory>
    ensures lost { OnOk result ((V : View) → HasLost V forest.old removed.old.items → HasLost V forest.new removed.new.items) }
    ensures gone { OnOk result ((c : ℕ) (d : Seen) → IsRootNamed (node_at forest.new) name c d → ⊥) }
    ensures less { OnOk result ((c : ℕ) (d : Seen) → node_at forest.new c ≡ Some d → node_at forest.old c ≡ Some d) }
    ensures others { OnOk result ((c : ℕ) (d : Seen) → node_at forest.old c ≡ Some d → d.parent ≡ None → (d.node.shape.lot ≡ name → ⊥) → node_at forest.new c ≡ Some d) }
    ensures mode { forest.new.mode ≡ forest.old.mode }
{
    forest.laws(); // for the proof
    let Some(root) = forest.root_of(name) else {
        return Ok(());
    };
    let below = forest.below(root)?;
    removed.extend_from_slice(below.as_slice())?;
    forest.remove_lot(name);
    Ok(())
}

/// Removes the root of that name with all below it, where it isn't wanted any more, and lists them. Takes memory.
pub fn clear_root(
    alloc: Global,
    forest: &mut Forest,
    lot: Option<&Lot>,
    symbols: &mut Symbols,
    renewal: Renewal,
    name: Name,
    removed: &mut Vec<NodeChange>,
) -> Result<(), NoMemory>
    requires symbols { symbols.old ≡ renewal.new.now.grammar }
    requires lot { IsLotNamed renewal.new.now.lots name (option_copied lot) }
    ensures symbols { symbols.new ≡ symbols.old }
    ensures lost { OnOk result ((V : View) → HasLost V forest.old removed.old.items → HasLost V forest.new removed.new.items) }
    ensures wanted { OnOk result ((c : ℕ) (d : Seen) → IsRootNamed (node_at forest.new) name c d → IsWanted renewal.entry.new.now d.node) }
    ensures loses { OnOk result (Loses renewal.entry.new.now forest.old forest.new) }
    ensures mode { forest.new.mode ≡ forest.old.mode }
{
    if is_wanted(alloc, forest, lot, symbols, renewal, name)? {
        return Ok(());
    }
    remove_root(forest, name, removed)?;
    Ok(())
}

/// Removes the root of the old lot at a place, with all below it, where it isn't wanted any more, and lists these.
/// `come` is the place of the one new lot that isn't an old one. Takes memory.
fn remove_changed(
    alloc: Global,
    forest: &mut Forest,
    symbols: &mut Symbols,
    renewal: Renewal,
    gone: Option<usize>,
    come: Option<usize>,
    removed: &mut Vec<NodeChange>,
) -> Result<(), NoMemory>
    requires symbols { symbols.old ≡ renewal.new.now.grammar }
    requires wanted { AllWanted renewal.old.now forest.old }
    requires differ { DifferAt renewal.old.now renewal.new.now gone come }
    ensures symbols { symbols.new ≡ symbols.old }
    ensures lost { OnOk result ((V : View) → HasLost V forest.old removed.old.items → HasLost V forest.new removed.new.items) }
    ensures wanted { OnOk result (AllWanted renewal.entry.new.now forest.new) }
    ensures loses { OnOk result (Loses renewal.entry.new.now forest.old forest.new) }
    ensures mode { forest.new.mode ≡ forest.old.mode }
{
    let Some(lot) = lot_at(&renewal.old.lots, gone) else {
        return Ok(());
    };
    let again = lot_named(&renewal.new.lots, come, lot.name);
    clear_root(alloc, forest, again, symbols, renewal, lot.name, removed)?;
    Ok(())
}

/// Removes the roots that aren't wanted any more, with all below them, and lists these. Takes memory.
pub fn remove_roots(
    alloc: Global,
    forest: &mut Forest,
    symbols: &mut Symbols,
    renewal: Renewal,
    removed: &mut Vec<NodeChange>,
) -> Result<(), NoMemory>
    requires symbols { symbols.old ≡ renewal.new.now.grammar }
    requires wanted { AllWanted renewal.old.now forest.old }
    ensures symbols { symbols.new ≡ symbols.old }
    ensures lost { OnOk result ((V : View) → HasLost V forest.old removed.old.items → HasLost V forest.new removed.new.items) }
    ensures wanted { OnOk result (AllWanted renewal.entry.new.now forest.new) }
    ensures loses { OnOk result (Loses renewal.entry.new.now forest.old forest.new) }
    ensures mode { forest.new.mode ≡ forest.old.mode }
{
    match renewal.changed {
        ChangedLots::Nothing => Ok(()),
        ChangedLots::One(gone, come) => {
            remove_changed(alloc, forest, symbols, renewal, gone, come, removed)
        }
        ChangedLots::All => remove_all(alloc, forest, symbols, renewal, removed),
    }
}

/// Adds the root of a lot, where it has none, and lists it. Takes memory.
pub fn add_root(
    forest: &mut Forest,
    symbols: &mut Symbols,
    new: &Sources,
    lot: &Lot,
    created: &mut Vec<NodeChange>,
) -> Result<(), NoMemory>
    requires symbols { symbols.old ≡ new.now.grammar }
    requires listed { (i : ℕ) × (slice_get new.now.lots i ≡ Some lot.now) }
    requires scope { IsOk (root_scope lot.now) }
    ensures gains { OnOk result (Gains new.now forest.old forest.new) }
    ensures there { OnOk result ((c : ℕ) × (d : Seen) × IsRootNamed (node_at forest.new) lot.now.name c d) }
    ensures created { OnOk result ((W : View) → AreWithin W (node_at forest.old) → ListsOnlyIn (node_at forest.old) W created.old.items → ListsOnlyIn (node_at forest.new) W created.new.items) }
    ensures mode { forest.new.mode ≡ forest.old.mode }
    ensures symbols { symbols.new ≡ symbols.old }
{
    if forest.root_of(lot.name).is_some() {
        return Ok(());
    }
    let root = forest.add_lot(lot, symbols)?;
    list_node(forest, root, created)
}

/// Lists a node. Takes memory.
fn list_node(forest: &Forest, id: NodeId, list: &mut Vec<NodeChange>) -> Result<(), NoMemory>
    ensures { OnOk result ((d : Seen) → node_at forest.now id ≡ Some d → list.new.items ≡ list.old.items ++ moved_of id d ∷ []) }
{
    if let Some(node) = forest.node(id) {
        list.push(NodeChange::of(id.number() as usize, node))?;
    }
    Ok(())
}

/// Adds the root of the new lot at a place, where it has none, and lists it. Takes memory.
fn add_changed(
    forest: &mut Forest,
    symbols: &mut Symbols,
    renewal: Renewal,
    come: Option<usize>,
    created: &mut Vec<NodeChange>,
) -> Result<(), NoMemory>
    requires symbols { symbols.old ≡ renewal.new.now.grammar }
    requires there { AreThereBut come renewal.new.now forest.old }
    ensures gains { OnOk result (Gains renewal.entry.new.now forest.old forest.new) }
    ensures there { OnOk result (AreThere renewal.entry.new.now forest.new (length renewal.entry.new.now.lots)) }
    ensures created { OnOk result ((W : View) → AreWithin W (node_at forest.old) → ListsOnlyIn (node_at forest.old) W created.old.items → ListsOnlyIn (node_at forest.new) W created.new.items) }
    ensures mode { forest.new.mode ≡ forest.old.mode }
    ensures symbols { symbols.new ≡ symbols.old }
{
    let Some(lot) = lot_at(&renewal.new.lots, come) else {
        return Ok(());
    };
    add_root(forest, symbols, renewal.new, lot, created)?;
    Ok(())
}

/// Adds the roots of lots that have none, and lists them. Takes memory.
pub fn add_roots(
    forest: &mut Forest,
    symbols: &mut Symbols,
    renewal: Renewal,
    created: &mut Vec<NodeChange>,
) -> Result<(), NoMemory>
    requires symbols { symbols.old ≡ renewal.new.now.grammar }
    requires there { AreThereStill renewal.changed renewal.new.now forest.old }
    ensures gains { OnOk result (Gains renewal.entry.new.now forest.old forest.new) }
    ensures there { OnOk result (AreThere renewal.entry.new.now forest.new (length renewal.entry.new.now.lots)) }
    ensures created { OnOk result ((W : View) → AreWithin W (node_at forest.old) → ListsOnlyIn (node_at forest.old) W created.old.items → ListsOnlyIn (node_at forest.new) W created.new.items) }
    ensures mode { forest.new.mode ≡ forest.old.mode }
    ensures symbols { symbols.new ≡ symbols.old }
{
    match renewal.changed {
        ChangedLots::Nothing => Ok(()),
        ChangedLots::One(_, come) => add_changed(forest, symbols, renewal, come, created),
        ChangedLots::All => add_all(forest, symbols, renewal, created),
    }
}
