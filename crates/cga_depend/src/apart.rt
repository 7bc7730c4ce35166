ghost use Rattle.std.specs.Prelude.{◌≡◌, true};
ghost use Rattle.cga_depend.specs.Ends.{AreApart};

use cga_rule::Attribute;

/// What each of two lists of attributes has between what they share at both ends: nothing where they are the same, and
/// one attribute where an edit gave it another value.
#[derive(Clone, Copy)]
pub(crate) struct Apart<'a> {
    pub old: &'a [Attribute],
    pub new: &'a [Attribute],
}

/// What two lists have between what they share. The time goes by the lists.
#[tactic(auto, using(crate::proofs::Ends::apart_within))]
pub(crate) fn between<'a>(old: &'a [Attribute], new: &'a [Attribute]) -> Apart<'a>
    ensures { AreApart old.now new.now result.old.now result.new.now }
{
    let behind = behind_front(old, new);
    before_end(behind.old, behind.new)
}

// What they have behind what they share at the front.
#[tactic(auto, using(crate::proofs::Ends::apart_itself, crate::proofs::Ends::apart_behind))]
fn behind_front<'a>(old: &'a [Attribute], new: &'a [Attribute]) -> Apart<'a>
    ensures { AreApart old.now new.now result.old.now result.new.now }
{
    if let Some((a, old_rest)) = old.split_first() {
        if let Some((b, new_rest)) = new.split_first() {
            if is_same(a, b) {
                return behind_front(old_rest, new_rest);
            }
        }
    }
    Apart { old, new }
}

// What they have before what they share at the end.
#[tactic(auto, using(crate::proofs::Ends::apart_itself, crate::proofs::Ends::apart_before))]
fn before_end<'a>(old: &'a [Attribute], new: &'a [Attribute]) -> Apart<'a>
    ensures { AreApart old.now new.now result.old.now result.new.now }
{
    if let Some((a, old_rest)) = old.split_last() {
        if let Some((b, new_rest)) = new.split_last() {
            if is_same(a, b) {
                return before_end(old_rest, new_rest);
            }
        }
    }
    Apart { old, new }
}

fn is_same(a: &Attribute, b: &Attribute) -> bool
    ensures { result ≡ true → a.now ≡ b.now }
{
    a.name == b.name && a.value == b.value
}
