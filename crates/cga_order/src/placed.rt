/// What has become of a member: it waits for its expansion, was expanded or met a fault F, or is an
/// instance, which draws P and is never expanded.
#[derive(Clone, Copy, Debug, PartialEq, Eq)]
pub enum Kind<F, P> {
    Waiting,
    Done,
    Faulted(F),
    Instance(P),
}

/// A member of a configuration: a shape N, and what has become of it.
#[derive(Drop)]
pub struct Placed<N, F, P> {
    pub shape: N,
    pub kind: Kind<F, P>,
}
