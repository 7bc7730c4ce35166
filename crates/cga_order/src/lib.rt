//! The order of derivation, and when a shape is expanded, as a key of an ordered map: its mode and its chain, owned, in
//! the order of the stamps.
//!
//! It must not know geometry, forests or rules, or what stands under a key. A shape's rank says which of two waiting
//! shapes is expanded first. Its stamp, which is computed from the ranks on its path, says when it is expanded: the shape
//! of least rank is always that of least stamp, and stamps rise as the derivation goes on.
//!
//! What callers get wrong: two things. Ranks don't rise as the derivation goes on, so what was done is told by stamps
//! alone. And keys go by mode first, so the least key is the next shape only in a map whose keys are all of one mode.
#![tactic(auto)]

mod chain;
mod head;
mod keys;
pub mod laws;
mod path;
mod placed;
mod rank;
mod runs;
mod stamp_key;
mod walk;

pub use chain::Chain;
pub use head::{child_head, head_of};
pub use keys::{child_key, child_path, root_key};
pub use path::Path;
pub use placed::{Kind, Placed};
pub use rank::cmp_rank;
pub use runs::same_steps;
pub use stamp_key::StampKey;
pub use walk::{cmp_stamp, have_one_stamp};
