//! What is proved of the order of derivation. Each function here does nothing: its contract is the
//! law, which a caller's proof can cite.

ghost use Rattle.cga_order.specs.FourShapes.{FourShapesInOrder, TwoModes};
ghost use Rattle.cga_order.specs.Laws.{AreOrders, ChildrenComeLater, LeastRankIsLeastStamp, RunsRise};
ghost use Rattle.cga_order.specs.Laws.{MembersStandByBirth, StepsLeaveMembers, EachSeesWhatWasMade};
ghost use Rattle.cga_order.specs.Laws.{DerivedIsConsistent, ConsistentIsDerived, ConsistentSoFar};
ghost use Rattle.cga_order.specs.Laws.{TurnsKeepRight, TurnsRise, RightIsConsistent};

/// Both comparisons are total orders, and only shapes of one lot and one path compare as equal.
pub fn orders()
    ensures { AreOrders }
{}

/// A child is made at its parent's stamp and has a greater one; a root is there at every stamp.
pub fn children_come_later()
    ensures { ChildrenComeLater }
{}

/// At each step of a derivation the waiting shape of least rank is that of least stamp.
pub fn least_rank_is_least_stamp<N, A, F, P>()
    ensures { LeastRankIsLeastStamp N A F P }
{}

/// A derivation takes its shapes by strictly rising stamps.
pub fn runs_rise<N, A, F, P>()
    ensures { RunsRise N A F P }
{}

/// The members of a derivation after the roots stand by their parents' stamps, and then by their
/// indices.
pub fn members_stand_by_birth<N, A, F, P>()
    ensures { MembersStandByBirth N A F P }
{}

/// A derivation has at least as many members as it took steps.
pub fn steps_leave_members<N, A, F, P>()
    ensures { StepsLeaveMembers N A F P }
{}

/// A list that is consistent has the members of the derivation, whatever order it stands in: what
/// was worked out in any other way, and is consistent, is what the derivation gives.
pub fn consistent_is_derived<N, A, F, P>()
    ensures { ConsistentIsDerived N A F P }
{}

/// A list that is consistent as far as a limit of stamps has the members of the derivation that
/// far. So members can be counted before the whole list is consistent.
pub fn consistent_so_far<N, A, F, P>()
    ensures { ConsistentSoFar N A F P }
{}

/// What a shape sees at its stamp was made before it: when it is taken, it sees just what exists,
/// or waits, at its stamp.
pub fn each_sees_what_was_made<N, A, F, P>()
    ensures { EachSeesWhatWasMade N A F P }
{}

/// What a derivation ends with is a consistent list.
pub fn derived_is_consistent<N, A, F, P>()
    ensures { DerivedIsConsistent N A F P }
{}

/// A turn of an agenda that queues each later shape that sees a created or removed shape leaves every node
/// right, or queued.
pub fn turns_keep_right<N, A, F, P>()
    ensures { TurnsKeepRight N A F P }
{}

/// An agenda that is worked by its least stamp takes each shape once, by strictly rising stamps.
pub fn turns_rise<N, A, F, P>()
    ensures { TurnsRise N A F P }
{}

/// Where all that is queued comes after a limit, the kept list is consistent that far; where
/// nothing is queued, it is consistent.
pub fn right_is_consistent<N, A, F, P>()
    ensures { RightIsConsistent N A F P }
{}

/// The worlds of the laws can be met: where c, of lower priority than b, has a child d of the
/// priority of a, the order is a, c, d, b.
pub fn four_shapes_in_order()
    ensures { FourShapesInOrder }
{}

/// Where b has the child d and all have one priority, the order is a, b, c, d by breadth, and
/// a, b, d, c by depth.
pub fn two_modes()
    ensures { TwoModes }
{}
