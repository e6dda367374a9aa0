//! How values compare, as the clauses of functions.

ghost use Rattle.std.specs.Prelude.{◌≡◌, ◌↔◌, IsTrue};

use crate::config::GenerateRrsigConfig;
use crate::error::{SignError, SigningError};

/// `==` on errors of signers is equality.
pub fn law_of_equal_sign_errors(error: SignError, other: SignError) -> bool
    ensures { IsTrue result ↔ (error ≡ other) }
{
    error == other
}

/// `==` on errors of signing is equality.
pub fn law_of_equal_signing_errors(error: SigningError, other: SigningError) -> bool
    ensures { IsTrue result ↔ (error ≡ other) }
{
    error == other
}

/// `==` on settings of signatures is equality.
pub fn law_of_equal_rrsig_configs(config: GenerateRrsigConfig, other: GenerateRrsigConfig) -> bool
    ensures { IsTrue result ↔ (config ≡ other) }
{
    config == other
}
