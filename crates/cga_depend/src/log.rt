//! The created and removed nodes of symbols, and what they make of dependents.
ghost use Rattle.std.specs.Prelude.{◌≡◌, ℕ, List, OnOk, if◌then◌else◌, true, false};
ghost use Rattle.cga_depend.specs.Log.{IsApplied, is_pair, lists, noted};

use crate::dependents::Dependents;
use cga_fraction::NoMemory;
use cga_index::NodeId;
use cga_word::Name;

/// A node came, or went: its symbol and its id.
#[derive(Clone, Copy)]
pub enum Pairing {
    Created(Name, NodeId),
    Removed(Name, NodeId),
}

/// Makes the nodes of each symbol what a log says. Takes memory.
pub fn apply(dependents: &mut Dependents, log: &[Pairing]) -> Result<(), NoMemory>
    ensures applied { OnOk result (IsApplied log.now dependents.old dependents.new) }
{
    for entry in log {
        apply_one(dependents, *entry)?;
    }
    Ok(())
}

fn apply_one(dependents: &mut Dependents, entry: Pairing) -> Result<(), NoMemory>
    ensures noted { OnOk result ((s : List ℕ) (c : ℕ) → lists dependents.new s c ≡ noted entry s c (lists dependents.old s c)) }
{
    match entry {
        Pairing::Created(symbol, node) => add(dependents, symbol, node),
        Pairing::Removed(symbol, node) => {
            take_out(dependents, symbol, node);
            Ok(())
        }
    }
}

fn add(dependents: &mut Dependents, symbol: Name, node: NodeId) -> Result<(), NoMemory>
    ensures noted { OnOk result ((s : List ℕ) (c : ℕ) → lists dependents.new s c ≡ (if is_pair symbol node s c then true else lists dependents.old s c)) }
{
    dependents.add(symbol, node)?;
    Ok(())
}

/// Takes a node out of those of a symbol, where it is one.
fn take_out(dependents: &mut Dependents, symbol: Name, node: NodeId)
    ensures noted { (s : List ℕ) (c : ℕ) → lists dependents.new s c ≡ (if is_pair symbol node s c then false else lists dependents.old s c) }
{
    let _nodes = dependents.nodes_of(symbol); // for the proof
    dependents.remove(symbol, node);
}
