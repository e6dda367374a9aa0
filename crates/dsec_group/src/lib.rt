//! The records of a section in groups by owner, class and type, each with its signatures (RFC 2181 5, RFC 4035 2.2).
#![tactic(auto)]

mod cached;
mod check;
mod dname;
mod group;
mod key;
mod lasting;
mod limits;
mod members;
mod memo;
mod places;
mod sections;
mod seed;
mod set;
mod settle;
mod state;
mod steps;
mod tries;

pub use cached::set_of;
pub use check::{KeyCheck, check_with_keys, check_with_tagged_keys};
pub use dname::map_dname;
pub use dsec_link::ttl_for_sig;
pub use group::Group;
pub use limits::Limits;
pub use memo::{Memo, NoMemo};
pub use sections::{GroupedSections, read_groups};
pub use seed::{FEW_RECORDS, Seed, SeededHasher};
pub use set::{GroupSet, groups};
pub use state::{ValidationState, law_of_equal_states};
pub use steps::{Step, Steps};
pub use tries::{Tries, try_all};
