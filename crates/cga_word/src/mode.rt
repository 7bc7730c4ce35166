/// The order of derivation among shapes whose symbols have equal priority: the least depth first,
/// over all lots, or depth first, one lot after the other.
#[derive(Clone, Copy, PartialEq, Eq, Debug)]
pub enum Mode {
    Breadth,
    Depth,
}
