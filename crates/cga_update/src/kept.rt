use cga_depend::Dependents;
use cga_forest::Forest;

/// What is kept of a town from one update to the next.
#[derive(Drop)]
pub struct Kept {
    pub forest: Forest,
    pub dependents: Dependents,
}
