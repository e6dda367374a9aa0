//! What is known of a name (RFC 4033 5, RFC 4035 5.2).

use crate::keys::Keys;
use dsec_cause::Cause;
use dsec_link::{Link, Links};
use std::alloc::AllocError;

/// By which record a name is known to have no chain.
#[derive(Clone, Copy, Debug, PartialEq, Eq)]
pub enum Ground {
    /// An NSEC record at it, with NS, and without DS and SOA (RFC 4035 5.2).
    NsecWithoutDs,
    /// An NSEC3 record that matches it, with NS, and without DS and SOA (RFC 5155 8.9).
    Nsec3WithoutDs,
    /// An NSEC3 record that covers it and opts out (RFC 5155 8.9).
    Nsec3OptsOut,
    /// An NSEC3 record of more iterations than are followed (RFC 9276 3.2).
    Nsec3Iterates,
    /// A DS set at it without a record of a known algorithm and digest (RFC 4035 5.2).
    DsNotSupported,
}

/// The signed record that shows that no chain leads to a name, and the links that lead to it.
#[derive(Drop)]
pub struct SignedCause {
    /// By which record.
    pub basis: Ground,
    /// The links, of which the last is the record's set.
    pub links: Links,
}

impl Clone for SignedCause {
    ghost use Rattle.std.specs.Prelude.{◌≡◌};

    ghost is_clone = { λ old new. new ≡ old };

    fn clone(&self) -> Result<SignedCause, AllocError> {
        let links = self.links.clone()?;
        Ok(SignedCause {
            basis: self.basis,
            links,
        })
    }
}

/// What is known of a name.
#[derive(Drop)]
pub enum Standing {
    /// A zone begins here, with these keys.
    Apex(Keys),
    /// It is in the zone above, and no zone begins here: the link of the set that shows it.
    Within(Link),
    /// No chain leads here.
    Insecure(Option<Cause>, SignedCause),
    /// What was found out isn't to be relied on.
    Bogus(Cause),
}

impl Clone for Standing {
    ghost use Rattle.std.specs.Prelude.{◌≡◌};

    ghost is_clone = { λ old new. new ≡ old };

    fn clone(&self) -> Result<Standing, AllocError> {
        match self {
            Standing::Apex(keys) => {
                let keys = keys.clone()?;
                Ok(Standing::Apex(keys))
            }
            Standing::Within(last) => {
                let last = last.clone()?;
                Ok(Standing::Within(last))
            }
            Standing::Insecure(cause, signed) => {
                let signed = signed.clone()?;
                Ok(Standing::Insecure(*cause, signed))
            }
            Standing::Bogus(cause) => Ok(Standing::Bogus(*cause)),
        }
    }
}
