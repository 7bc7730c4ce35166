//! What is proved of districts. Each function here does nothing: its contract is the law, which a caller's proof can
//! cite.
ghost use Rattle.cga_region.specs.Districts.{DistrictsAreApart};
ghost use Rattle.cga_region.specs.Halos.{OwnMembersAreTheWhole};
ghost use Rattle.cga_region.specs.Hulls.{HullsTellApart};
ghost use Rattle.cga_region.specs.TownJobs.{JobsAreTheTown};
ghost use Rattle.cga_region.specs.TownParts.{PartsAreApart};
ghost use Rattle.cga_region.specs.Told.{ToldIsSettled};
ghost use Rattle.cga_region.specs.Towns.{LotsAreApart};

use cga_derivation::laws::consistent_is_within;
use cga_shape::{Shape, ShapeFault};
use cga_word::{Answers, Primitive};

/// Two parts of the roots whose shapes don't see one another are derived apart: what the parts end with are together
/// the members that the whole ends with.
pub fn districts_are_apart<N, A, F, P>()
    ensures { DistrictsAreApart N A F P }
{
    own_members_are_the_whole::<N, A, F, P>();
}

/// So are two parts of a town's lots, where no rule asks, or no box of a shape that asks meets one of the other part.
pub fn lots_are_apart()
    ensures { LotsAreApart }
{
    districts_are_apart::<Shape, Answers, ShapeFault, Primitive>();
}

/// And so is any number of parts.
pub fn parts_are_apart()
    ensures { PartsAreApart }
{
    lots_are_apart();
}

/// Parts are apart where no box of a lot of one touches that of a lot of another, and the box of each lot holds those
/// of all its shapes.
pub fn hulls_tell_apart()
    ensures { HullsTellApart }
{}

/// Jobs derive others along with the roots that they answer for. Where each one's own members see of these what the
/// jobs that answer for them derived, the own members of all jobs are together the members that the whole ends with.
pub fn own_members_are_the_whole<N, A, F, P>()
    ensures { OwnMembersAreTheWhole N A F P }
{
    consistent_is_within::<N, A, F, P>();
}

/// Jobs of a town that each derive lots of the town along with those that they answer for. Of each two lots that jobs
/// answer for, the second is derived alike by both jobs, or meets no shape of the first that asks. Then what the jobs
/// answer for are together the members of the town.
pub fn jobs_are_the_town()
    ensures { JobsAreTheTown }
{
    consistent_is_within::<Shape, Answers, ShapeFault, Primitive>();
}

/// It is so where each two lots agree, by what the jobs tell: both jobs derived the second by the same steps, or its
/// boxes don't touch that of the first.
pub fn told_is_settled()
    ensures { ToldIsSettled }
{}
