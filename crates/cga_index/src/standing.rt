/// What a node is to one that asks: not there for it, waiting for its expansion, or done with it.
#[derive(Clone, Copy, Debug, PartialEq, Eq)]
pub enum Standing {
    Hidden,
    Waiting,
    Finished,
}
