//! What one box answers for another.
ghost use Rattle.std.specs.Prelude.{◌≡◌, ◌∷◌, []};
ghost use Rattle.cga_index.specs.Occlusion.{answer_of};

use cga_frame::WorldBox;
use cga_word::Answer;

/// What a box answers for another one: full where it holds it, part where it only meets it.
#[tactic(auto, unfolding(crate::specs::Occlusion::answer_of))]
pub fn compare(own: &WorldBox, area: &WorldBox) -> Answer
    ensures { result ≡ answer_of area.now (own.now ∷ []) }
{
    if own.meets(area) {
        if own.holds(area) {
            Answer::Full
        } else {
            Answer::Part
        }
    } else {
        Answer::Nothing
    }
}
