ghost use Rattle.std.specs.Prelude.{◌≡◌, IfSome, option_map};
ghost use Rattle.cga_order.specs.Chain.{IsWhole};
ghost use Rattle.cga_order.specs.Seen.{chain_of};
ghost use Rattle.cga_queue.specs.Agenda.{Chains};

use cga_index::NodeId;
use cga_order::Chain;

/// What gives the nodes their chains: a node that may be on an agenda has one.
pub trait Chained {
    ghost chains: { Self → Chains };

    /// None exactly for a node that may not be on an agenda.
    fn chain(&self, id: NodeId) -> Option<Chain<'_>>
        ensures value { chains self.now id ≡ option_map chain_of result }
        ensures whole { IfSome result (λ chain. IsWhole (chain_of chain)) };
}
