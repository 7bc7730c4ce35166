//! What a shape is answered, over the whole list.
ghost use Rattle.std.specs.Prelude.{◌≡◌};
ghost use Rattle.cga_frame.specs.Box.{box_of};
ghost use Rattle.cga_order.specs.World.{is_waiting};
ghost use Rattle.cga_expand.specs.Asked.{answer_if, on_path};
ghost use Rattle.cga_derive.specs.Compared.{answers_with, compared, is_about, one_compared, targeted};
ghost use Rattle.cga_derive.specs.Streaks.{IsBoxed};

use crate::streak::Streak;
use cga_check::Said;
use cga_frame::WorldBox;
use cga_index::{is_full, joined};
use cga_shape::{Answers, Kind, Placed, Shape};
use cga_word::{Answer, Target};

/// The answers of a shape of whose symbol this is said. The streaks are those of the members.
pub fn asked(said: Said, list: &[Placed], streaks: &[Streak], shape: &Shape) -> Answers
    requires { IsBoxed list.now streaks.now }
    ensures { result ≡ answers_with said list.now shape.now }
{
    Answers {
        noparent: answer(said.noparent, list, streaks, shape, Target::Noparent),
        active: answer(said.active, list, streaks, shape, Target::Active),
    }
}

fn answer(
    mentioned: bool,
    list: &[Placed],
    streaks: &[Streak],
    shape: &Shape,
    target: Target,
) -> Option<Answer>
    requires { IsBoxed list.now streaks.now }
    ensures { result ≡ answer_if mentioned shape.now (targeted target list.now) }
{
    if mentioned {
        Some(compared(list, streaks, shape, &shape.scope.world_box(), target))
    } else {
        None
    }
}

// One walk from the last member to the first, which stops at a member that fills the box. A streak whose
// hull doesn't touch the box is passed in one step.
fn compared(
    list: &[Placed],
    streaks: &[Streak],
    shape: &Shape,
    own: &WorldBox,
    target: Target,
) -> Answer
    requires boxed { IsBoxed list.now streaks.now }
    requires own { own.now ≡ box_of shape.now.scope }
    ensures { result ≡ compared target shape.now list.now }
{
    let mut found = Answer::Nothing;
    let mut left = list.len();
    while left > 0 {
        let streak = &streaks[left - 1];
        if streak.hull.touches(own) {
            left -= 1;
            found = joined(one_compared(&list[left], shape, own, target), found);
            if is_full(found) {
                return Answer::Full;
            }
        } else {
            left = streak.first;
        }
    }
    found
}

// What the member alone comes to. Most members don't meet the box, so that is looked at before their paths.
fn one_compared(member: &Placed, shape: &Shape, own: &WorldBox, target: Target) -> Answer
    requires { own.now ≡ box_of shape.now.scope }
    ensures { result ≡ one_compared target shape.now member.now }
{
    if is_about(target, member) {
        let bounds = member.shape.scope.world_box();
        if bounds.meets(own) {
            if !is_on_path(&member.shape, shape) {
                return if bounds.holds(own) {
                    Answer::Full
                } else {
                    Answer::Part
                };
            }
        }
    }
    Answer::Nothing
}

fn is_about(target: Target, member: &Placed) -> bool
    ensures { result ≡ is_about target member.now }
{
    match target {
        Target::Noparent => true,
        Target::Active => is_waiting(member),
    }
}

fn is_waiting(member: &Placed) -> bool
    ensures { result ≡ is_waiting member.now.kind }
{
    matches!(member.kind, Kind::Waiting)
}

#[tactic(auto, unfolding(cga_expand::specs::Asked::on_path))]
fn is_on_path(ancestor: &Shape, shape: &Shape) -> bool
    ensures { result ≡ on_path ancestor.now shape.now }
{
    ancestor.lot == shape.lot && shape.path.as_slice().starts_with(ancestor.path.as_slice())
}
