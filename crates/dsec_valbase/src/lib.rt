//! What validation stands on, as one crate: it passes on what `dsec_link` and `dsec_anchors` make public.
#![tactic(auto)]

pub use dsec_anchors::{
    AnchorError, AnchorRecords, TrustAnchor, TrustAnchors, island_owner, read_anchors,
};
pub use dsec_link::{
    DnskeyExt, DsExt, KeySearch, Link, LinkKind, Links, RecordSet, RrsigExt, Shown, first_key_for,
    matches, may_sign, push_link, signed_bytes, supported_algorithm, supported_digest,
};
