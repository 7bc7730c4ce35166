//! What is proved of what stands. Each function here does nothing: its contract is the law, which a
//! caller's proof can cite.
ghost use Rattle.cga_update.specs.Laws.{PutBackStands, SourcesMakeEdits, StandingIsDerived};

/// Old and new sources make an edit of the theory, in the mode of the new.
pub fn sources_make_edits()
    ensures { SourcesMakeEdits }
{}

/// The nodes of a forest that stands for sources are the members of their derivation.
pub fn standing_is_derived()
    ensures { StandingIsDerived }
{}

/// A forest that was put back as it was stands as it did, with its dependents.
pub fn put_back_stands()
    ensures { PutBackStands }
{}
