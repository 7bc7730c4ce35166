//! What holds of the number of touched shapes. Each function here does nothing: its contract is the law, which a
//! caller's proof can cite.
ghost use Rattle.cga_touched.specs.Example.{TownIsTouched};
ghost use Rattle.cga_touched.specs.Heights.{HeightIsTouched};
ghost use Rattle.cga_touched.specs.Laws.{TouchedIsCounted};

/// The number that is computed is that of the touched shapes.
pub fn touched_is_counted()
    ensures { TouchedIsCounted }
{}

/// What edits of a small town touch, each by computing the number.
pub fn town_is_touched()
    ensures { TownIsTouched }
{}

/// What the change of an attribute touches of a lot with two children, by computing the number.
pub fn height_is_touched()
    ensures { HeightIsTouched }
{}
