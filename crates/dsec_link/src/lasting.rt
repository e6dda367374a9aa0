//! For how long what a signature shows may be kept (RFC 4035 5.3.3).

ghost use Rattle.std.specs.Prelude.{◌≡◌};
ghost use Rattle.dsec_spec.specs.Lasting.{seconds_left as left_of, ttl_for_sig as ttl_of};
ghost use Rattle.dsec_spec.specs.Numbers.{RRSIG};
ghost use Rattle.dsec_spec.specs.Period.{seconds_after};
ghost use Rattle.dsec_wire.specs.Views.{rrsig_view};

use dsec_number::{Timestamp, Ttl};
use dsec_wire::{Record, Rrsig};

/// The seconds for which what a signature shows may be kept from `now` on: the least of its record's TTL, its original TTL,
/// and what is left of its period, by serial arithmetic; 0 out of the period (RFC 4034 3.1.5, RFC 4035 5.3.3).
pub fn ttl_for_sig(sig: &Record, now: Timestamp) -> Ttl
    requires { sig.now.rtype ≡ RRSIG }
    ensures { result ≡ ttl_of sig.now now }
{
    match sig.rdata().rrsig() {
        Some(rrsig) => {
            let ttl = sig.ttl().as_secs().min(rrsig.original_ttl.as_secs());
            Ttl::from_secs(ttl.min(seconds_left(&rrsig, now)))
        }
        None => Ttl::ZERO,
    }
}

/// How many seconds of the signature's period are left.
fn seconds_left(rrsig: &Rrsig<'_>, now: Timestamp) -> u32
    ensures { result ≡ left_of (rrsig_view rrsig.now) now }
{
    if now.in_period(rrsig.inception, rrsig.expiration) {
        after(now, rrsig.expiration)
    } else {
        0
    }
}

/// How many seconds a moment comes after another, by serial arithmetic (RFC 1982 3).
fn after(from: Timestamp, to: Timestamp) -> u32
    ensures { result ≡ seconds_after from to }
{
    to.to_int().wrapping_sub(from.to_int())
}
