//! What is proved of derivations. Each function here does nothing: its contract is the law, which a
//! caller's proof can cite.

ghost use Rattle.cga_derivation.specs.Laws.{SitesAreWorlds, SitesRunAlong, StampsRise, MembersStandInOrder};
ghost use Rattle.cga_derivation.specs.Laws.{DeriveSays, DerivationIsOne};
ghost use Rattle.cga_derivation.specs.Laws.{BudgetIsLength, ConsistentIsDerived, ConsistentIsWithin, DerivedIsConsistent};

/// Where shapes know their ancestors' priorities, each derivation is that of a world. So the laws of
/// the order of derivation speak of it.
pub fn sites_are_worlds<N, A, F, P>()
    ensures { SitesAreWorlds N A F P }
{}

/// The run of that world and the derivation are one, step by step.
pub fn sites_run_along<N, A, F, P>()
    ensures { SitesRunAlong N A F P }
{}

/// Shapes are expanded by strictly rising stamps.
pub fn stamps_rise<N, A, F, P>()
    ensures { StampsRise N A F P }
{}

/// The members after the roots stand by their parents' stamps, and then by their indices.
pub fn members_stand_in_order<N, A, F, P>()
    ensures { MembersStandInOrder N A F P }
{}

/// `derive` is none if and only if some configuration has more members than the budget, and else the
/// configuration in which nothing waits.
pub fn derive_says<N, A, F, P>()
    ensures { DeriveSays N A F P }
{}

/// A derivation ends in one configuration, and `derive` gives no other.
pub fn derivation_is_one<N, A, F, P>()
    ensures { DerivationIsOne N A F P }
{}

/// A consistent list has the members of the derivation, whatever order it stands in.
pub fn consistent_is_derived<N, A, F, P>()
    ensures { ConsistentIsDerived N A F P }
{}

/// What a derivation ends with is a consistent list.
pub fn derived_is_consistent<N, A, F, P>()
    ensures { DerivedIsConsistent N A F P }
{}

/// Where a consistent list is within a budget, so is the derivation, and it has the list's members.
pub fn consistent_is_within<N, A, F, P>()
    ensures { ConsistentIsWithin N A F P }
{}

/// A derivation is within exactly the budgets that are no less than the number of its members.
pub fn budget_is_length<N, A, F, P>()
    ensures { BudgetIsLength N A F P }
{}
