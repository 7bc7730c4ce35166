//! What is proved of an edit between two derivations. Each function here does nothing: its contract
//! is the law, which a caller's proof can cite.

ghost use Rattle.cga_rework.specs.Laws.{RulesMakeEdits, ReadingsMakeEdits, DerivationsAreRules};
ghost use Rattle.cga_rework.specs.Laws.{ReworkIsExact, KnownIsOver, OverIsNone, LoopIsExact};
ghost use Rattle.cga_rework.specs.TreeLaws.{NodeTurns, QuietTurns, TakenIsPriced, AgendaIsQueued, EmptyIsNone, EntriesNumber};
ghost use Rattle.cga_rework.specs.TreeLaws.{RootsBegin, RerootedIsCity, RootsAddUp, ListsAreChanges};
ghost use Rattle.cga_rework.specs.TreeLaws.{WalkAsks, ListsAreViews, StandsAgain};
ghost use Rattle.cga_rework.specs.Laws.{StartStands, WorkStartsAgain, FromNothing, UnchangedChildren};

/// Old and new rules make the edit of an agenda, over shapes with the priorities on their paths.
pub fn rules_make_edits<S, A, B, F, P>()
    ensures { RulesMakeEdits S A B F P }
{}

/// Rules that read no more of their sources than the settings meet what an edit's rules have to.
pub fn readings_make_edits<S, A, B, F, P>()
    ensures { ReadingsMakeEdits S A B F P }
{}

/// Two derivations of equal mode, lots and paths are rules over the same shapes.
pub fn derivations_are_rules<S, A, B, F, P>()
    ensures { DerivationsAreRules S A B F P }
{}

/// When nothing is on the agenda, the nodes are the members of the new derivation, the shapes that
/// were expanded are those touched, each once, and the record of change is what it must be.
pub fn rework_is_exact<S, A, B, F, P>()
    ensures { ReworkIsExact S A B F P }
{}

/// Where more is known, or had its turn, than the budget allows, the new derivation is over it.
pub fn known_is_over<S, A, B, F, P>()
    ensures { KnownIsOver S A B F P }
{}

/// Over ranked shapes a configuration has more members than the budget if and only if `derive` is
/// none.
pub fn over_is_none<S, A, B, F, P>()
    ensures { OverIsNone S A B F P }
{}

/// What the loop over the agenda ends with, said of the two derivations.
pub fn loop_is_exact<S, A, B, F, P>()
    ensures { LoopIsExact S A B F P }
{}

/// What the work of an edit starts from stands for the old sources.
pub fn start_stands<S, A, B, F, P>()
    ensures { StartStands S A B F P }
{}

/// What an edit ends with is what the next starts from.
pub fn work_starts_again<S, A, B, F, P>()
    ensures { WorkStartsAgain S A B F P }
{}

/// From no lots, all non-instances are touched.
pub fn from_nothing<S, A, B, F, P>()
    ensures { FromNothing S A B F P }
{}

/// Where no child of a shape changes its priority, renewing its children changes nothing.
pub fn unchanged_children<S, A, B, F, P>()
    ensures { UnchangedChildren S A B F P }
{}

/// A turn of a kept tree is a turn of the work of an edit.
pub fn node_turns<X, S, A, B, F, P>()
    ensures { NodeTurns X S A B F P }
{}

/// So is one that changes nothing but the agenda.
pub fn quiet_turns<X, S, A, B, F, P>()
    ensures { QuietTurns X S A B F P }
{}

/// At its turn a node has the new priority of its symbol.
pub fn taken_is_priced<X, S, A, B, F, P>()
    ensures { TakenIsPriced X S A B F P }
{}

/// What an agenda of numbers says can be told of ranked shapes.
pub fn agenda_is_queued<X, S, A, B, F, P>()
    ensures { AgendaIsQueued X S A B F P }
{}

/// Where no node is on the agenda, nothing is queued.
pub fn empty_is_none<X, S, A, B, F, P>()
    ensures { EmptyIsNone X S A B F P }
{}

/// The entries of a map name the numbers that are on the agenda.
pub fn entries_number<K>()
    ensures { EntriesNumber K }
{}

/// The removed and created roots, and the first agenda, begin the work.
pub fn roots_begin<X, S, A, B, F, P>()
    ensures { RootsBegin X S A B F P }
{}

/// After them the nodes stand at their places.
pub fn rerooted_is_city<X, S, A, B, F, P>()
    ensures { RerootedIsCity X S A B F P }
{}

/// Removals and additions of roots add up.
pub fn roots_add_up<X, S, A, F, P>()
    ensures { RootsAddUp X S A F P }
{}

/// The removed and created instances, each once, are a change.
pub fn lists_are_changes<X, S, A, B, F, P>()
    ensures { ListsAreChanges X S A B F P }
{}

/// What a node asks, over the shapes that a walk counts.
pub fn walk_asks<X, S, A, B, F, P>()
    ensures { WalkAsks X S A B F P }
{}

/// The list of a view is as long as the view has nodes, and each stands in it once.
pub fn lists_are_views<X, S, A, B, F, P>()
    ensures { ListsAreViews X S A B F P }
{}

/// What an edit leaves stands for the new rules, and so does what is put back for the old.
pub fn stands_again<X, S, A, B, F, P>()
    ensures { StandsAgain X S A B F P }
{}
