//! What is proved of lots in districts. A function here does nothing: its contract is the law, which a caller's proof
//! can cite.
ghost use Rattle.cga_region.specs.Again.{RestAgrees};
ghost use Rattle.cga_region.specs.Back.{BackByJobs, UndoneByJobs};
ghost use Rattle.cga_region.specs.Changes.{ChangesBalance};
ghost use Rattle.cga_region.specs.Jobs.{RegionIsItsJobs};
ghost use Rattle.cga_region.specs.Lots.{LotsAreTheirDistricts};
ghost use Rattle.cga_region.specs.Parts.{RegionIsItsParts};
ghost use Rattle.cga_region.specs.Refusals.{RefusalsAreOfJobs};
ghost use Rattle.cga_region.specs.Rows.{EachRowIsSo};

use crate::towns::{jobs_are_the_town, lots_are_apart, parts_are_apart, told_is_settled};

/// Where two parts of a town are apart, the instances and the faults of a lot, and so its bill, are those of its part.
pub fn lots_are_their_districts()
    ensures { LotsAreTheirDistricts }
{
    lots_are_apart();
}

/// For any number of parts, of which no rule asks or the told boxes don't touch: the instances and the faults of each lot
/// are those of its part, and counts and bills are sums.
pub fn region_is_its_parts()
    ensures { RegionIsItsParts }
{
    parts_are_apart();
}

/// For jobs that derive their neighbours along with the lots that they answer for, and agree on what they see, as they
/// tell it: the instances and the faults of each lot are those of the job that answers for it, and counts are sums.
pub fn region_is_its_jobs()
    ensures { RegionIsItsJobs }
{
    jobs_are_the_town();
    told_is_settled();
}

/// Where jobs keep a region before and behind an edit, what they tell of their own lots balances what the region's print
/// draws before and behind.
pub fn changes_balance()
    ensures { ChangesBalance }
{
    jobs_are_the_town();
    told_is_settled();
}

/// Two lots of which nothing is told otherwise than before agree as before.
pub fn rest_agrees()
    ensures { RestAgrees }
{}

/// Where each job of an edit goes back, the region does: what the jobs told, taken back, is the list of their undos, and
/// nothing needs to be compared.
pub fn back_by_jobs()
    ensures undone { UndoneByJobs }
    ensures back { BackByJobs }
{
    jobs_are_the_town();
    told_is_settled();
}

/// A region refuses an edit if and only if a job does, but for the limits of a job.
pub fn refusals_are_of_jobs()
    ensures { RefusalsAreOfJobs }
{}

/// The worked rows of a region that is kept.
pub fn rows_are_so()
    ensures { EachRowIsSo }
{}
