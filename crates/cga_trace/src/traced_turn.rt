ghost use Rattle.cga_order.specs.Chain.{IsWhole};
ghost use Rattle.cga_order.specs.Seen.{chain_of};

use cga_index::NodeId;
use cga_order::Chain;

/// A node that isn't an instance, with its chain.
#[derive(Clone, Copy)]
pub struct TracedTurn<'a> {
    pub id: NodeId,
    pub chain: Chain<'a>,
    ghost whole: { IsWhole (chain_of chain) },
}
