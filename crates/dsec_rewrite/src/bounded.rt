//! Groups with the TTLs that they are cut to (RFC 4035 5.3.3).

ghost use Rattle.std.specs.Prelude.{◌≡◌};
ghost use Rattle.dsec_spec.specs.Lasting.{adjusted_ttl as adjusted, ttl_for_sig as ttl_of};
ghost use Rattle.dsec_spec.specs.Numbers.{RRSIG};
ghost use Rattle.dsec_rewrite.specs.Views.{is_different};

use dsec_group::{Group, ttl_for_sig};
use dsec_number::{Timestamp, Ttl};
use dsec_wire::Record;

/// A group, and the TTL that those of its records are cut to.
#[derive(Clone, Copy)]
pub struct BoundedGroup<'a> {
    /// The group.
    pub group: &'a Group,
    /// The greatest TTL, in seconds, that a record of it may keep; none where they stay as they are.
    pub adjust_ttl: Option<Ttl>,
}

/// The TTL that a group's records are cut to, where its signature may be kept from `now` on for less than the greatest of them says
/// (RFC 4035 5.3.3).
pub fn adjusted_ttl(group: &Group, signature: &Record, now: Timestamp) -> Option<Ttl>
    requires { signature.now.rtype ≡ RRSIG }
    ensures { result ≡ adjusted group.now (ttl_of signature.now now) }
{
    let seconds = ttl_for_sig(signature, now);
    if seconds.as_secs() < group.max_ttl().as_secs() {
        Some(seconds)
    } else {
        None
    }
}

/// Whether the group's records differ from those that came.
pub(crate) fn differs(one: &BoundedGroup<'_>) -> bool
    ensures { result ≡ is_different one.now }
{
    one.adjust_ttl.is_some() || one.group.found_duplicate()
}
