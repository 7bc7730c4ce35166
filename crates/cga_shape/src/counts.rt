/// What `stats` tells of a city.
#[derive(Clone, Copy, Debug, PartialEq, Eq)]
pub struct Counts {
    pub lots: u32,
    /// All of them: those that were expanded, those that met a fault, and instances.
    pub shapes: u32,
    pub instances: u32,
    pub faults: u32,
    /// By the last accepted edit.
    pub expanded: u64,
}
