//! How far a walk has come.

ghost use Rattle.std.specs.Prelude.{◌≡◌, IfOk};
ghost use Rattle.std.specs.Arc.{arc_value};
ghost use Rattle.std.specs.Option.{option_map};
ghost use Rattle.dsec_node.specs.Views.{standing_view};
ghost use Rattle.dsec_nodes.specs.Machine.{arrived as arrived_at};
ghost use Rattle.dsec_nodes.specs.Nodes as nodes;
ghost use Rattle.dsec_nodes.specs.Walk as walks;
ghost use Rattle.dsec_walk.specs.Views.{here_view};
ghost use Rattle.dsec_spec.specs.Names.{place};
ghost use Rattle.dsec_wire.specs.DataViews.{nsec3_in, nsec_in};

use dsec_crypto::Verifier;
use dsec_link::RecordSet;
use dsec_name::{Name, NoMemory};
use dsec_node::{Node, Pending, Standing};
use dsec_number::Rtype;
use dsec_sorted::RtypeBitmap;
use dsec_wire::Data;
use std::sync::Arc;

/// How far a walk has come.
#[derive(Drop)]
pub(crate) struct Here<V: Verifier> {
    /// The last zone on the way.
    pub(crate) zone: Arc<Node<V>>,
    /// The last node.
    pub(crate) node: Arc<Node<V>>,
}

/// What a reply comes to.
#[derive(Drop)]
pub(crate) enum Next<V: Verifier> {
    /// This node, by the question for this type.
    Made(Rtype, Node<V>),
    /// The question for a DNSKEY set, which the DS set is to admit.
    Asks(Pending),
}

/// Whether a walk goes on below a node: below a zone, and below what is within one (RFC 4033 5) unless it redirects what is below it.
pub(crate) fn goes_on<V: Verifier>(node: &Node<V>) -> bool
    ensures { result ≡ walks.goes_on node.now }
{
    match node.standing() {
        Standing::Apex(_) => true,
        Standing::Within(last) => !redirects_below(node.name(), last.records()),
        Standing::Insecure(_, _) | Standing::Bogus(_) => false,
    }
}

/// Whether a set that shows the name within a zone is the name's own NSEC or NSEC3 record, with DNAME: that redirects what is below the name
/// (RFC 5155 8.3, RFC 6672 2.4, RFC 6840 4.1).
fn redirects_below(name: &Name, set: &RecordSet) -> bool
    ensures { result ≡ walks.redirects_below (place name.now) set.now }
{
    match set.datas() {
        [one] => is_own(name, set) && lists_dname(one),
        _ => false,
    }
}

/// Whether a set that shows the name within a zone is the name's own.
fn is_own(name: &Name, set: &RecordSet) -> bool
    ensures { result ≡ walks.is_own (place name.now) set.now }
{
    set.rtype() == Rtype::NSEC3 || set.owner() == name
}

/// Whether data are those of an NSEC or NSEC3 record with DNAME.
fn lists_dname(one: &Data) -> bool
    ensures { result ≡ walks.lists_dname one.now.rtype one.now.octets }
{
    nsec3_lists_dname(one) || nsec_lists_dname(one)
}

/// Whether data are those of an NSEC3 record with DNAME.
fn nsec3_lists_dname(one: &Data) -> bool
    ensures { result ≡ walks.nsec3_lists_dname (nsec3_in one.now) }
{
    match one.nsec3() {
        Some(nsec3) => {
            let bitmap = RtypeBitmap {
                octets: nsec3.types,
            };
            bitmap.contains(Rtype::DNAME)
        }
        None => false,
    }
}

/// Whether data are those of an NSEC record with DNAME.
fn nsec_lists_dname(one: &Data) -> bool
    ensures { result ≡ walks.nsec_lists_dname (nsec_in one.now) }
{
    match one.nsec() {
        Some(nsec) => {
            let bitmap = RtypeBitmap { octets: nsec.types };
            bitmap.contains(Rtype::DNAME)
        }
        None => false,
    }
}

/// Whether it is bogus.
pub(crate) fn is_bogus(standing: &Standing) -> bool
    ensures { result ≡ nodes.IsBogus (standing_view standing.now) }
{
    matches!(standing, Standing::Bogus(_))
}

/// What is reached by a node at the next name.
pub(crate) fn arrived<V: Verifier>(
    here: &Option<Here<V>>,
    node: &Arc<Node<V>>,
) -> Result<Here<V>, NoMemory>
    ensures { IfOk result (λ it. here_view it ≡ arrived_at (option_map here_view here.now) (arc_value node.now)) }
{
    let copy = Arc::try_clone(node)?;
    let zone = match here {
        Some(before) => zone_after(&before.zone, node)?,
        None => Arc::try_clone(node)?,
    };
    Ok(Here { zone, node: copy })
}

/// The last zone on the way, with a node at the next name.
fn zone_after<V: Verifier>(
    zone: &Arc<Node<V>>,
    node: &Arc<Node<V>>,
) -> Result<Arc<Node<V>>, NoMemory>
    ensures { IfOk result (λ z. record { zone = arc_value z; node = arc_value node.now } ≡ walks.after (arc_value zone.now) (arc_value node.now) (arc_value node.now).standing) }
{
    match node.standing() {
        Standing::Apex(_) => Ok(Arc::try_clone(node)?),
        _ => Ok(Arc::try_clone(zone)?),
    }
}
