//! Why a label is no hash.

use thiserror::Error;

/// The label isn't base32hex (RFC 4648 7), or writes more octets than a hash can have (RFC 5155 3.2).
#[derive(Clone, Copy, Debug, PartialEq, Eq, Error)]
#[error("LabelToHashError")]
pub struct LabelToHashError;
