//! The refusal of a text that isn't a key's.

use thiserror::Error;

/// The text isn't one DNSKEY record as BIND writes it.
#[derive(Clone, Copy, Debug, PartialEq, Eq, Error)]
#[error("misformatted DNSKEY record")]
pub struct ParseDnskeyTextError;
