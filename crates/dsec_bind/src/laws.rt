//! The law of BIND's text.

ghost use Rattle.std.specs.Prelude.{◌≡◌, ◌<◌, All, IfSome};
ghost use Rattle.dsec_spec.specs.Numbers.{DNSKEY, IN};
ghost use Rattle.dsec_bind.specs.KeyDisplay.{bind_text, read_back};
ghost use Rattle.dsec_bind.specs.KeyText.{bind_record};

use dsec_name::law_of_display;
use dsec_wire::Record;

/// What a DNSKEY record of class IN is displayed as is read back as the record, with TTL 0. Only a key without an octet is
/// not: its text has no base64, and is refused.
pub fn law_of_bind_text(it: &Record)
    requires dnskey { it.now.rtype ≡ DNSKEY }
    requires class { it.now.class ≡ IN }
    ensures { IfSome (bind_text it.now) (λ text. bind_record text ≡ read_back it.now) }
{
    law_of_display(it.owner());
    in_range(it.owner().canonical_octets().as_slice());
    in_range(it.rdata().octets().as_slice());
}

/// That octets are octets.
fn in_range(octets: &[u8])
    ensures { All (λ octet. octet < 256) octets.now }
{}
