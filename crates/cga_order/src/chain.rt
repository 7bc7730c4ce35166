ghost use Rattle.cga_order.specs.Head.{IsHead};

use cga_word::Name;

/// Where a shape stands and the priorities on the way there: those of the symbols of its root and
/// of each shape on the path, so one more than the path is long.
#[derive(Clone, Copy)]
pub struct Chain<'a> {
    pub lot: Name,
    pub path: &'a [u16],
    pub priorities: &'a [u16],
    /// At which depth its head stands, its greatest rank: the deepest that has the greatest of the
    /// priorities. It is kept where a chain is, so that no comparison looks for it.
    pub head: usize,
    ghost headed: { IsHead priorities.now head },
}
