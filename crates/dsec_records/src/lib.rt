//! What a zone's records are brought into before they are signed, as one crate: it passes on what `dsec_sorted`, `dsec_chain`,
//! `dsec_hashed` and `dsec_bind` make public.
#![tactic(auto)]

pub use dsec_bind::{
    BindDisplay, ParseDnskeyTextError, display_as_bind, law_of_bind_text, parse_from_bind,
};
pub use dsec_chain::{DenialError, InsideOwner, Nsec3HashError, generate_nsecs, inside_owners};
pub use dsec_hashed::{Nsec3Records, generate_nsec3s, nsec3_default_hash, nsec3_hash};
pub use dsec_sorted::{
    DenialConfig, InsertError, Nsec3Config, Nsec3Salt, Nsec3SaltError, OwnerHash, OwnerHashError,
    OwnerRrs, RecordsIter, Rrset, RrsetError, RrsetIter, RtypeBitmap, SortedRecords, canonical_cmp,
    extend_sorted, is_of_one_class, is_sorted_canonical, push_bitmap,
};
