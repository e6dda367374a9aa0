//! Records as lines of zone text, and a zone's key as one, for tests.
#![tactic(auto)]

mod reading;
mod zone_key;

pub use reading::{name, record, records};
pub use zone_key::{KEY, KEY_SIGNATURE};
