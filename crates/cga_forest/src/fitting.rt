ghost use Rattle.std.specs.Prelude.{◌≡◌};
ghost use Rattle.cga_forest.specs.Node.{fits, same_sort};

use crate::node::Node;
use cga_shape::Kind;

/// Whether an old child stays where a new one is asked for. Children at one index share their lot and path, and mostly
/// differ in their scope, so that this is looked at before the shape as a whole.
#[tactic(auto, unfolding(crate::specs::Node::fits), using(crate::proofs::Equal::scope_first))]
pub fn are_alike(old: &Node, new: &Node) -> bool
    ensures { result ≡ fits old.now new.now }
{
    old.priority == new.priority
        && (same_sort(old.kind, new.kind)
            && (old.shape.scope == new.shape.scope && old.shape == new.shape))
}

/// Neither is an instance, or both are instances of one primitive.
fn same_sort(a: Kind, b: Kind) -> bool
    ensures { result ≡ same_sort a b }
{
    match (a, b) {
        (Kind::Instance(a), Kind::Instance(b)) => a == b,
        (Kind::Instance(_), _) | (_, Kind::Instance(_)) => false,
        _ => true,
    }
}
