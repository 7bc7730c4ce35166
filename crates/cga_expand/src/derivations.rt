//! That sources make a derivation.
ghost use Rattle.cga_expand.specs.Derivation.{SourcesAreDerivations};

/// Where lot names differ, the laws of derivations hold of that of the sources. Does nothing: its
/// contract is the law, which a caller's proof can cite.
pub fn sources_are_derivations()
    ensures { SourcesAreDerivations }
{}
