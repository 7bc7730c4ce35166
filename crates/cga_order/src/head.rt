//! Where the greatest rank of a chain stands, found once and kept from then on.
ghost use Rattle.std.specs.Prelude.{◌≡◌, ◌<◌, ◌++◌, ◌∷◌, [], length};
ghost use Rattle.cga_order.specs.Head.{IsHead, child_head};

/// The head of a chain of these priorities, of which all are looked at. That of a root is 0.
pub fn head_of(priorities: &[u16]) -> usize
    requires { 0 < length priorities.now }
    ensures { IsHead priorities.now result }
{
    let mut head = 0;
    for depth in 1..priorities.len() {
        if priorities[depth] >= priorities[head] {
            head = depth;
        }
    }
    head
}

/// The head of a child's chain, whose own priority stands behind those of its parent. Takes constant
/// time.
pub fn child_head(priorities: &[u16], head: usize, own: u16) -> usize
    requires { IsHead priorities.now head }
    ensures value { result ≡ child_head priorities.now head own }
    ensures head { IsHead (priorities.now ++ own ∷ []) result }
{
    if own >= priorities[head] {
        priorities.len()
    } else {
        head
    }
}
