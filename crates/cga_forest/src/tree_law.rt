//! What is proved of a forest as a tree of boxes. The function here does nothing: its contract is the law, which a
//! caller's proof can cite.
ghost use Rattle.cga_forest.specs.Laws.{ForestsAreHullTrees, LastingAreHullTrees, LastingHaveNodes, TreesHaveNodes};

/// What holds of each forest (`Forest::laws`) gives the laws of `HullTree`, over the nodes that are there; also where only
/// those ask that were there at the mark (`LastingAskers` of cga_index).
pub fn forests_are_hull_trees()
    ensures laws { ForestsAreHullTrees }
    ensures nodes { TreesHaveNodes }
    ensures lasting { LastingAreHullTrees }
    ensures lasting_nodes { LastingHaveNodes }
{}
