//! Zone text, read entry by entry (RFC 1035 5.1).
#![tactic(auto)]

mod address;
mod compared;
mod control;
mod data;
mod entry;
mod error;
mod front;
mod item;
mod line;
mod place;
mod setting;
mod step;
mod word;
mod zonefile;

pub use compared::{law_of_equal_inplace_errors, law_of_equal_zonefile_errors};
pub use entry::Entry;
pub use error::{InplaceError, ZonefileError};
pub use zonefile::Zonefile;
