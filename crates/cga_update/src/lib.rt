//! From one derivation to the next: a kept forest that stands for old sources is made to stand for new ones, expanding
//! as many shapes as the edit touched.
//!
//! It must not know what an edit is, what a report is or how texts are written.
//!
//! What callers get wrong: after want of memory the forest, the dependents and the record are given up, and only new
//! ones stand again.
#![tactic(auto)]

mod again;
mod all_roots;
mod anew;
mod asked;
mod askers;
mod asking;
mod begin;
mod changed_lots;
mod clear;
mod end;
mod follow;
mod kept;
pub mod laws;
mod log;
mod lookup;
mod queue;
mod renewal;
mod rework;
mod roots;
mod turn;
mod update_refused;
mod updating;
mod work;
mod worked;
mod worker;

pub use changed_lots::ChangedLots;
pub use kept::Kept;
pub use renewal::Renewal;
pub use update_refused::UpdateRefused;
pub use updating::update;
