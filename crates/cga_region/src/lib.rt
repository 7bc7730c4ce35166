//! Districts and regions. Where two sets of lots are apart, the town of both is the two towns, and so for any number of
//! sets. Jobs that derive their neighbours, too, and see of them what is derived elsewhere, are together the town. What is
//! told of a lot of a region is what its own district tells, or the job that answers for it. And what an edit of a region
//! is by its jobs: what it changes, what has to be compared again, who refuses it, and how it is undone.
//!
//! It must not know forests, lines or how jobs are run. So a region may be derived by jobs, each with its own lots. The
//! crate holds definitions and laws alone, over any shapes, over sources, edits and what is drawn.
//!
//! What callers get wrong: three things. That the pictures of two districts are apart says nothing: what has to be apart
//! are the boxes of all shapes that ask, drawn or not, from those of all shapes of the other district. A law is of the
//! instances and the faults of one lot: of all lots the lists of two districts don't stand one behind the other, since a
//! list has its lots in the order of the sources. And where a lot goes over to another job, a step between has to be
//! without it: each step tells of its own lots, and of no other.
#![tactic(auto)]

mod laws;
mod towns;

pub use laws::{
    back_by_jobs, changes_balance, lots_are_their_districts, refusals_are_of_jobs,
    region_is_its_jobs, region_is_its_parts, rest_agrees, rows_are_so,
};
pub use towns::{
    districts_are_apart, hulls_tell_apart, jobs_are_the_town, lots_are_apart,
    own_members_are_the_whole, parts_are_apart, told_is_settled,
};
