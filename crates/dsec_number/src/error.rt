//! The refusal of a word that stands for no number.

use thiserror::Error;

/// The word stands for no type, or no class.
#[derive(Clone, Copy, Debug, PartialEq, Eq, Error)]
#[error("UnknownWord")]
pub struct UnknownWord;
