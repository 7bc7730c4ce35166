//! What is proved of the derivations of sources. The function does nothing: its contract is the law,
//! which a caller's proof can cite.
ghost use Rattle.cga_derive.specs.Laws.{ExpansionsRise};

/// Where lot names differ, the shapes that so many steps took rise strictly by stamp, for every
/// number of steps and in both modes.
pub fn expansions_rise()
    ensures { ExpansionsRise }
{}
