//! What is reported of a forest.
ghost use Rattle.std.specs.Prelude.{◌≡◌, ◌++◌, ◌∷◌, [], IfOk, OnOk, flat_map};
ghost use Rattle.cga_forest.specs.Tree.{node_at};
ghost use Rattle.cga_city.specs.Lots.{names_of};
ghost use Rattle.cga_city.specs.Nodes.{ForItsMembers, given_of, member_of};
ghost use Rattle.cga_city.specs.Order.{members_of};
ghost use Rattle.cga_city.specs.Reports as spec;

use crate::lots::lot_place;
use crate::no_lot::NoLot;
use crate::walk::nodes_of_lot;
use cga_forest::{Forest, Node};
use cga_fraction::{List, NoMemory};
use cga_index::NodeId;
use cga_shape::{Drawn, FaultLine, Kind, Lot, Lots, Path};
use cga_word::Name;
use std::alloc::Global;

fn push_drawn(drawn: &mut List<Drawn>, node: &Node) -> Result<(), NoMemory>
    ensures { OnOk result (drawn.new ≡ drawn.old ++ spec.drawn_of (member_of node.now)) }
{
    if let Kind::Instance(primitive) = node.kind {
        drawn.push(Drawn {
            lot: node.shape.lot,
            symbol: node.shape.symbol,
            primitive,
            scope: node.shape.scope,
        })?;
    }
    Ok(())
}

fn push_fault(alloc: Global, faults: &mut List<FaultLine>, node: &Node) -> Result<(), NoMemory>
    ensures { OnOk result (faults.new ≡ faults.old ++ spec.fault_of (member_of node.now)) }
{
    if let Kind::Faulted(fault) = node.kind {
        let path = Path::from_slice(alloc, node.shape.path.as_slice())?;
        faults.push(FaultLine {
            lot: node.shape.lot,
            path,
            symbol: node.shape.symbol,
            fault,
        })?;
    }
    Ok(())
}

fn push_drawn_at(drawn: &mut List<Drawn>, forest: &Forest, node: NodeId) -> Result<(), NoMemory>
    ensures { OnOk result (drawn.new ≡ drawn.old ++ given_of spec.drawn_of forest.now node) }
{
    match forest.node(node) {
        Some(node) => push_drawn(drawn, node),
        None => Ok(()),
    }
}

fn push_fault_at(
    alloc: Global,
    faults: &mut List<FaultLine>,
    forest: &Forest,
    node: NodeId,
) -> Result<(), NoMemory>
    ensures { OnOk result (faults.new ≡ faults.old ++ given_of spec.fault_of forest.now node) }
{
    match forest.node(node) {
        Some(node) => push_fault(alloc, faults, node),
        None => Ok(()),
    }
}

fn push_drawn_of(drawn: &mut List<Drawn>, forest: &Forest, nodes: &[NodeId]) -> Result<(), NoMemory>
    ensures { OnOk result (drawn.new ≡ drawn.old ++ flat_map (given_of spec.drawn_of forest.now) nodes.now) }
{
    for node in nodes {
        push_drawn_at(drawn, forest, *node)?;
    }
    Ok(())
}

fn push_faults_of(
    alloc: Global,
    faults: &mut List<FaultLine>,
    forest: &Forest,
    nodes: &[NodeId],
) -> Result<(), NoMemory>
    ensures { OnOk result (faults.new ≡ faults.old ++ flat_map (given_of spec.fault_of forest.now) nodes.now) }
{
    for node in nodes {
        push_fault_at(alloc, faults, forest, *node)?;
    }
    Ok(())
}

// Adds what is drawn in a lot.
fn push_drawn_in(
    alloc: Global,
    drawn: &mut List<Drawn>,
    forest: &Forest,
    lot: Name,
) -> Result<(), NoMemory>
    ensures { OnOk result (ForItsMembers forest.now (λ list. drawn.new ≡ drawn.old ++ flat_map spec.drawn_of (members_of lot list))) }
{
    forest.laws(); // for the proof
    let nodes = nodes_of_lot(alloc, forest, lot)?;
    push_drawn_of(drawn, forest, nodes.as_slice())?;
    Ok(())
}

// Adds the faults of a lot.
fn push_faults_in(
    alloc: Global,
    faults: &mut List<FaultLine>,
    forest: &Forest,
    lot: Name,
) -> Result<(), NoMemory>
    ensures { OnOk result (ForItsMembers forest.now (λ list. faults.new ≡ faults.old ++ flat_map spec.fault_of (members_of lot list))) }
{
    forest.laws(); // for the proof
    let nodes = nodes_of_lot(alloc, forest, lot)?;
    push_faults_of(alloc, faults, forest, nodes.as_slice())?;
    Ok(())
}

// Adds what is drawn in a run of lots.
fn push_drawn_by(
    alloc: Global,
    drawn: &mut List<Drawn>,
    forest: &Forest,
    run: &[Lot],
) -> Result<(), NoMemory>
    ensures { OnOk result (ForItsMembers forest.now (λ list. drawn.new ≡ drawn.old ++ spec.drawn_in (names_of run.now) list)) }
{
    for lot in run {
        push_drawn_in(alloc, drawn, forest, lot.name)?;
    }
    Ok(())
}

/// The instances of all lots, with no walk but over the nodes of these lots.
fn all_drawn(alloc: Global, lots: &Lots, forest: &Forest) -> Result<List<Drawn>, NoMemory>
    ensures { IfOk result (λ drawn. ForItsMembers forest.now (λ list. drawn ≡ spec.drawn_in (names_of lots.now) list)) }
{
    let mut drawn = List::new(alloc);
    for run in lots.runs() {
        push_drawn_by(alloc, &mut drawn, forest, run.as_slice())?;
    }
    Ok(drawn)
}

/// The instances of a lot.
pub(crate) fn lot_drawn(alloc: Global, lot: Name, forest: &Forest) -> Result<List<Drawn>, NoMemory>
    ensures { IfOk result (λ drawn. ForItsMembers forest.now (λ list. drawn ≡ spec.drawn_in (lot ∷ []) list)) }
{
    let mut drawn = List::new(alloc);
    push_drawn_in(alloc, &mut drawn, forest, lot)?;
    Ok(drawn)
}

/// The instances of all lots, or of the one that is named.
pub(crate) fn told(
    alloc: Global,
    lots: &Lots,
    name: Option<Name>,
    forest: &Forest,
) -> Result<Result<List<Drawn>, NoLot>, NoMemory>
    ensures { IfOk result (λ told. ForItsMembers forest.now (λ list. told ≡ spec.instances_of lots.now name list)) }
{
    match name {
        None => Ok(Ok(all_drawn(alloc, lots, forest)?)),
        Some(name) => {
            if lot_place(lots, name).is_none() {
                return Ok(Err(NoLot));
            }
            Ok(Ok(lot_drawn(alloc, name, forest)?))
        }
    }
}

// Adds the faults of a run of lots.
fn push_faults_by(
    alloc: Global,
    faults: &mut List<FaultLine>,
    forest: &Forest,
    run: &[Lot],
) -> Result<(), NoMemory>
    ensures { OnOk result (ForItsMembers forest.now (λ list. faults.new ≡ faults.old ++ spec.faults_in (names_of run.now) list)) }
{
    for lot in run {
        push_faults_in(alloc, faults, forest, lot.name)?;
    }
    Ok(())
}

/// The faults of all lots.
pub(crate) fn all_faults(
    alloc: Global,
    lots: &Lots,
    forest: &Forest,
) -> Result<List<FaultLine>, NoMemory>
    ensures { IfOk result (λ faults. ForItsMembers forest.now (λ list. faults ≡ spec.faults_of lots.now list)) }
{
    let mut faults = List::new(alloc);
    for run in lots.runs() {
        push_faults_by(alloc, &mut faults, forest, run.as_slice())?;
    }
    Ok(faults)
}
