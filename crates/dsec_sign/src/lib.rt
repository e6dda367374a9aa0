//! Signatures of sets and of zones (RFC 4035 2.2).
#![tactic(auto)]

mod added;
mod allowed;
mod chain;
mod config;
mod in_out;
mod in_place;
mod into;
mod signable;
mod signing;
mod sorted_extend;
mod zone;
mod zone_records;
mod zone_sets;

pub use config::SigningConfig;
pub use dsec_rrsig::{
    GenerateRrsigConfig, SignError, SignRaw, SigningError, SigningKey, StandInKey, sign_rrset,
    sign_sorted_rrset_in,
};
pub use in_out::{SignableZoneInOut, sign_zone};
pub use signable::Signable;
pub use sorted_extend::SortedExtend;
pub use zone::{SignableZone, SignableZoneInPlace};
pub use zone_records::sign_sorted_zone_records;
