//! What is told of a line's changes.
ghost use Rattle.cga_obj.specs.Delta.{delta_text_of};

use cga_fraction::{List, NoMemory};
use cga_obj::delta_text;
use cga_shape::Changes;
use cga_top::Talker;
use std::alloc::Global;

/// Tells which instances went and which came.
pub(crate) struct Changed;

impl Talker for Changed {
    ghost told = { delta_text_of };

    fn text(alloc: Global, changes: &Changes) -> Result<List<u8>, NoMemory> {
        delta_text(alloc, changes)
    }

    #[tactic(auto, unfolding(cga_obj::specs::Delta::delta_text_of))]
    fn tells_changes() {}
}
