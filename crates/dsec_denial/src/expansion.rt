//! Whether a set was made from a wildcard (RFC 4034 3.1.3, RFC 4035 5.3.4).

ghost use Rattle.std.specs.Prelude.{◌≡◌};
ghost use Rattle.dsec_nodes.specs.Signing.{is_expanded as expanded};
ghost use Rattle.dsec_spec.specs.Numbers.{RRSIG};

use dsec_group::Group;
use dsec_wire::Record;

/// Whether a group's set was made from a wildcard, by its good signature. A set at the wildcard's own name wasn't.
pub fn is_expanded(group: &Group, signature: &Record) -> bool
    requires { signature.now.rtype ≡ RRSIG }
    ensures { result ≡ expanded group.now signature.now }
{
    match signature.rdata().rrsig() {
        Some(rrsig) => rrsig.labels < group.owner().rrsig_label_count(),
        None => false,
    }
}
