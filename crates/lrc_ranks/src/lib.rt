//! Sets of stripes, and the stripes that have a rank, by rank and number. Nothing allocates.
#![tactic(auto)]

mod block;
mod by_rank;
mod counts;
mod fragment_sets;
mod kept_planes;
mod marked_set;
mod planes;
mod queue;
mod stripe_members;
mod stripe_set;
mod work;

pub use by_rank::{ByRank, Position};
pub use fragment_sets::FragmentSets;
pub use kept_planes::KeptPlanes;
pub use planes::Planes;
pub use queue::Queue;
pub use stripe_members::StripeMembers;
pub use stripe_set::StripeSet;
pub use work::Work;
