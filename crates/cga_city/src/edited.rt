use cga_shape::Sources;
use cga_update::ChangedLots;

/// What an edit makes of sources, and which lots differ.
#[derive(Drop)]
pub(crate) struct Edited {
    pub(crate) sources: Sources,
    pub(crate) lots: ChangedLots,
}
