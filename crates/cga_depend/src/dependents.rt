ghost use Rattle.std.specs.Prelude.{◌≡◌, ℕ, List, [], ◌∷◌, true, false, None, nat_eq, IfNone, IfSome, OnOk, OnErr, length, option_map, slice_get, if◌then◌else◌};
ghost use Rattle.std.specs.List.{list_any, IsDistinct};
ghost use Rattle.std.specs.List.Sorted.{IsPermutation};
ghost use Rattle.std.specs.Map.{lookup};
ghost use Rattle.cga_check.specs.Uses.{same_name};
ghost use Rattle.cga_depend.specs.Pairs.{IsAt, nodes_in, under, with_node};

use crate::nodes::Nodes;
use cga_check::Latest;
use cga_fraction::NoMemory;
use cga_index::NodeId;
use cga_word::Name;
use indexmap::IndexMap;
use std::alloc::Global;
use std::marker::Model;

/// Pairs of a symbol and a node of it.
#[derive(Drop)]
pub struct Dependents {
    nodes: IndexMap<Name, Nodes>,
    /// Where the latest symbols stand, as a hint.
    places: Latest<usize>,
    alloc: Global,
}

impl Model for Dependents {
    ghost use Rattle.cga_depend.specs.Pairs.{DependentsView};

    ghost Value = { DependentsView };

    ghost view = { λ d. record { nodes = d.nodes.entries } };
}

impl Dependents {
    /// Takes no memory.
    pub fn new(alloc: Global) -> Dependents
        ensures { result ≡ record { nodes = [] } }
    {
        Dependents {
            nodes: IndexMap::new(alloc),
            places: Latest::new(),
            alloc,
        }
    }

    /// Adds a pair, where it isn't there. Takes memory.
    pub fn add(&mut self, symbol: Name, node: NodeId) -> Result<(), NoMemory>
        ensures nodes { OnOk result ((s : List ℕ) → nodes_in self.new s ≡ (if same_name symbol s then with_node (nodes_in self.old s) node else nodes_in self.old s)) }
        ensures err { OnErr result (self.new ≡ self.old) }
    {
        match self.symbol_index(symbol) {
            Some(place) => add_at(&mut self.nodes, place, symbol, node),
            None => add_first(self.alloc, &mut self.nodes, symbol, node),
        }
    }

    /// Where a symbol stands. The latest symbols are found without a look at the table.
    fn symbol_index(&mut self, symbol: Name) -> Option<usize>
        ensures found { IfSome result (λ place. IsAt self.new.nodes place symbol) }
        ensures none { IfNone result (lookup (same_name symbol) self.new.nodes ≡ None) }
        ensures same { self.new ≡ self.old }
    {
        if let Some(place) = self.places.get(symbol)
            && is_at(&self.nodes, place, symbol)
        {
            return Some(place);
        }
        let place = find(&self.nodes, symbol)?;
        self.places.note(symbol, place);
        Some(place)
    }

    /// Takes a pair out. False, and unchanged, where it isn't there.
    pub fn remove(&mut self, symbol: Name, node: NodeId) -> bool
        ensures found { result ≡ list_any (nat_eq node) (nodes_in self.old symbol) }
        ensures gone { result ≡ true → IsPermutation (nodes_in self.old symbol) (node ∷ nodes_in self.new symbol) }
        ensures others { (s : List ℕ) → same_name symbol s ≡ false → nodes_in self.new s ≡ nodes_in self.old s }
        ensures same { result ≡ false → self.new ≡ self.old }
    {
        match self.symbol_index(symbol) {
            Some(place) => take_at(&mut self.nodes, place, symbol, node),
            None => false,
        }
    }

    /// Of how many symbols there are nodes, or were some.
    pub fn symbols(&self) -> usize
        ensures { result ≡ length self.now.nodes }
    {
        self.nodes.len()
    }

    /// One of these symbols, and its nodes.
    pub fn entry(&self, place: usize) -> Option<(Name, &[NodeId])>
        ensures { option_map (λ p. (p.0, p.1.now)) result ≡ slice_get self.now.nodes place }
    {
        match self.nodes.get_index(place) {
            Some((symbol, nodes)) => Some((*symbol, nodes.as_slice())),
            None => None,
        }
    }

    /// The nodes of a symbol, each once, in any order.
    pub fn nodes_of(&self, symbol: Name) -> &[NodeId]
        ensures nodes { result.now ≡ nodes_in self.now symbol }
        ensures once { IsDistinct nat_eq result.now }
    {
        match self.nodes.get(&symbol) {
            Some(nodes) => nodes.as_slice(),
            None => &[],
        }
    }
}

fn is_at(nodes: &IndexMap<Name, Nodes>, place: usize, symbol: Name) -> bool
    ensures { result ≡ true → IsAt nodes.now.entries place symbol }
{
    match nodes.get_index(place) {
        Some((name, _)) => *name == symbol,
        None => false,
    }
}

fn find(nodes: &IndexMap<Name, Nodes>, symbol: Name) -> Option<usize>
    ensures found { IfSome result (λ place. IsAt nodes.now.entries place symbol) }
    ensures none { IfNone result (lookup (same_name symbol) nodes.now.entries ≡ None) }
{
    match nodes.get_full(&symbol) {
        Some((place, _, _)) => Some(place),
        None => None,
    }
}

/// Adds a node to those of its symbol.
fn add_at(
    nodes: &mut IndexMap<Name, Nodes>,
    place: usize,
    symbol: Name,
    node: NodeId,
) -> Result<(), NoMemory>
    requires at { IsAt nodes.old.entries place symbol }
    ensures nodes { OnOk result ((s : List ℕ) → under nodes.new.entries s ≡ (if same_name symbol s then with_node (under nodes.old.entries s) node else under nodes.old.entries s)) }
    ensures err { OnErr result (nodes.new.entries ≡ nodes.old.entries) }
{
    match nodes.get_index_mut(place) {
        Some(known) => known.add(node),
        None => unreachable!(),
    }
}

/// Adds the first node of a symbol.
fn add_first(
    alloc: Global,
    nodes: &mut IndexMap<Name, Nodes>,
    symbol: Name,
    node: NodeId,
) -> Result<(), NoMemory>
    requires absent { lookup (same_name symbol) nodes.old.entries ≡ None }
    ensures nodes { OnOk result ((s : List ℕ) → under nodes.new.entries s ≡ (if same_name symbol s then node ∷ [] else under nodes.old.entries s)) }
    ensures err { OnErr result (nodes.new.entries ≡ nodes.old.entries) }
{
    let mut first = Nodes::new(alloc);
    first.add(node)?;
    nodes.insert(symbol, first)?;
    Ok(())
}

/// Takes a node out of those of its symbol.
fn take_at(nodes: &mut IndexMap<Name, Nodes>, place: usize, symbol: Name, node: NodeId) -> bool
    requires at { IsAt nodes.old.entries place symbol }
    ensures found { result ≡ list_any (nat_eq node) (under nodes.old.entries symbol) }
    ensures gone { result ≡ true → IsPermutation (under nodes.old.entries symbol) (node ∷ under nodes.new.entries symbol) }
    ensures others { (s : List ℕ) → same_name symbol s ≡ false → under nodes.new.entries s ≡ under nodes.old.entries s }
    ensures same { result ≡ false → nodes.new.entries ≡ nodes.old.entries }
{
    match nodes.get_index_mut(place) {
        Some(known) => known.remove(node),
        None => unreachable!(),
    }
}
