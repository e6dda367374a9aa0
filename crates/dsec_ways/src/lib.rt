//! Scripts judged in several ways by public calls alone: messages by hand, alone or by turns, and single groups from the anchors and by a node.
#![tactic(auto)]

mod caches;
mod groups;
mod machine;
mod scene;
mod told;
mod turning;
mod ways;

pub use caches::Keepless;
pub use groups::{GroupTold, first_groups};
pub use scene::Scene;
pub use told::Told;
pub use ways::{one_by_one, two_by_two};
