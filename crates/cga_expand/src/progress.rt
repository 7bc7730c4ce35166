use cga_fraction::List;
use cga_frame::Scope;
use cga_shape::Emitted;

/// How far an expansion has come: its current scope, what it has emitted, and how many parts its
/// splits and components have made.
#[derive(Drop)]
pub struct Progress {
    pub scope: Scope,
    pub children: List<Emitted>,
    pub parts: usize,
}
