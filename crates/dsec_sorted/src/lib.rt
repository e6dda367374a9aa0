//! Zones as they are signed: type bitmaps, records in canonical order, record sets (RFC 4034 4.1.2, 6).
#![tactic(auto)]

mod bitmap;
mod compared;
mod config;
mod hash;
mod order;
mod reading;
mod records_iter;
mod rrset;
mod sorted;

pub use bitmap::push_bitmap;
pub use compared::{
    law_of_equal_owner_hash_errors, law_of_equal_rrset_errors, law_of_equal_salt_errors,
};
pub use config::{DenialConfig, Nsec3Config};
pub use hash::{Nsec3Salt, Nsec3SaltError, OwnerHash, OwnerHashError};
pub use order::{canonical_cmp, is_of_one_class, is_sorted_canonical};
pub use reading::RtypeBitmap;
pub use records_iter::{OwnerRrs, RecordsIter};
pub use rrset::{Rrset, RrsetError, RrsetIter};
pub use sorted::{InsertError, SortedRecords, extend_sorted};
