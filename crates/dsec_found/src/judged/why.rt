//! Why a judged group is as it is, and by which links (RFC 4033 5, RFC 4035 5.3).

ghost use Rattle.std.specs.Prelude.{◌≡◌, IfOk, IfSome};
ghost use Rattle.std.specs.Option.{option_map};
ghost use Rattle.dsec_node.specs.Views.{cause_view};
ghost use Rattle.dsec_nodes.specs.ByDenial.{expands};
ghost use Rattle.dsec_nodes.specs.Signing.{is_expanded as expanded};
ghost use Rattle.dsec_spec.specs.Names.{place, same_place};
ghost use Rattle.dsec_spec.specs.Numbers.{RRSIG};
ghost use Rattle.dsec_found.specs.Founds.{StandsBy, finding_by};
ghost use Rattle.dsec_found.specs.Outcomes.{bogus_of, by_held, insecure_of};
ghost use Rattle.dsec_found.specs.declared.found.Found.TheVariants.{Shown};
ghost use Rattle.dsec_found.specs.Told.{own_link, signature_of, signed_cause_of, zone_links};

use super::{Basis, JudgedGroup};
use crate::found::Found;
use crate::island::copy_of;
use crate::shared::{SharedCause, SharedLinks};
use dsec_cause::Cause;
use dsec_crypto::Verifier;
use dsec_group::Group;
use dsec_keys::KeyList;
use dsec_link::{Link, LinkKind};
use dsec_name::{Name, NoMemory};
use dsec_node::{Node, SignedCause, link_by_keys};
use dsec_wire::Record;
use std::alloc::Global;

impl<V: Verifier> JudgedGroup<V> {
    /// The zone that is to have signed the group; the node's name where it is judged by an insecure or bogus node; the root for a group of
    /// signatures alone.
    pub fn signer_name(&self, alloc: Global) -> Result<Name, NoMemory>
        ensures { IfOk result (λ name. place name ≡ self.now.signer) }
    {
        match &self.shared.basis {
            Basis::NoSet => Ok(Name::root(alloc)),
            Basis::NoAnchor(zone) => copy_of(zone),
            Basis::ByNode(node, _) => copy_of(node.signer_name()),
        }
    }

    /// Whether `signer_name` is this zone.
    #[tactic(auto, using(crate::proofs::SignerLaws::root_told))]
    pub fn is_signed_by(&self, zone: &Name) -> bool
        ensures { result ≡ same_place self.now.signer (place zone.now) }
    {
        match &self.shared.basis {
            Basis::NoSet => zone.is_root(),
            Basis::NoAnchor(signer) => *signer == *zone,
            Basis::ByNode(node, _) => *node.signer_name() == *zone,
        }
    }

    /// The links to the zone whose keys were tried with the group; none of a group whose zone is bogus.
    pub fn links(&self) -> Option<&[Link]>
        ensures { option_map (λ links. links.now) result ≡ zone_links self.now.finding }
    {
        match &self.shared.basis {
            Basis::ByNode(node, Found::Shown(_, _)) => Some(node.chain().as_slice()),
            Basis::ByNode(node, Found::Bogus(_)) => Some(node.chain().as_slice()),
            Basis::ByNode(_, Found::AtBogus(_)) => Some(&[]),
            _ => None,
        }
    }

    /// The signature by which links show the group.
    pub fn signature(&self) -> Option<&Record>
        ensures value { option_map (λ one. one.now) result ≡ signature_of self.now.finding }
        ensures typed { IfSome result (λ one. one.now.rtype ≡ RRSIG) }
    {
        match &self.shared.basis {
            Basis::ByNode(_, Found::Shown(signature, _)) => {
                Some(&self.shared.group.sig_set()[*signature])
            }
            _ => None,
        }
    }

    /// The link of the group's own set, which follows those to its zone, where links show it.
    pub fn last_link(&self, alloc: Global) -> Result<Option<Link>, NoMemory>
        ensures { IfOk result (λ link. link ≡ own_link self.now.finding) }
    {
        match &self.shared.basis {
            Basis::ByNode(node, Found::Shown(signature, key)) => {
                own_link_in(alloc, &self.shared.group, node, *signature, *key)
            }
            _ => Ok(None),
        }
    }

    /// The signed record that shows that no chain leads to the zone that was to have signed the group, of an insecure one.
    pub fn signed_cause(&self) -> Option<&SignedCause>
        ensures { option_map (λ signed. cause_view signed.now) result ≡ signed_cause_of self.now.finding }
    {
        match &self.shared.basis {
            Basis::ByNode(node, Found::Insecure) => node.cause(),
            _ => None,
        }
    }

    /// Whether links show the group's set as an expansion of a wildcard (RFC 4035 5.3.4).
    pub fn is_expanded(&self) -> bool
        ensures { result ≡ expands self.now.group self.now.finding }
    {
        match self.signature() {
            Some(signature) => is_expanded(self.group(), signature),
            None => false,
        }
    }

    /// What `signed_cause` tells, shared with the node.
    pub fn insecure(&self) -> Result<Option<SharedCause<V>>, NoMemory>
        ensures { IfOk result (λ found. option_map by_held found ≡ insecure_of self.now.finding) }
    {
        match &self.shared.basis {
            Basis::ByNode(node, Found::Insecure) => {
                let cause = SharedCause::of(node)?;
                Ok(Some(cause))
            }
            _ => Ok(None),
        }
    }

    /// The cause of a bogus group, and the links to the zone whose keys were tried, or none where that is bogus.
    pub fn bogus(&self) -> Result<Option<(Cause, SharedLinks<V>)>, NoMemory>
        ensures { IfOk result (λ found. found ≡ bogus_of self.now.finding) }
    {
        match &self.shared.basis {
            Basis::ByNode(node, Found::Bogus(cause)) => {
                let links = SharedLinks::of(node)?;
                Ok(Some((*cause, links)))
            }
            Basis::ByNode(_, Found::AtBogus(cause)) => Ok(Some((*cause, SharedLinks::none()))),
            _ => Ok(None),
        }
    }
}

/// The link of a group's set, by its signature at an index and the key at another of the zone's, where there is such a zone.
fn own_link_in<V: Verifier>(
    alloc: Global,
    group: &Group,
    node: &Node<V>,
    signature: usize,
    key: usize,
) -> Result<Option<Link>, NoMemory>
    requires { StandsBy group.now node.now (Shown signature key) }
    ensures { IfOk result (λ link. link ≡ own_link (finding_by group.now node.now (Shown signature key))) }
{
    match node.apex_keys() {
        Some(keys) => {
            let one = keys.key_at(key);
            let link = link_by_keys(alloc, LinkKind::Set, group, signature, keys, &one.key)?;
            Ok(Some(link))
        }
        None => Ok(None),
    }
}

/// Whether a group's set was made from a wildcard, by its good signature. A set at the wildcard's own name wasn't.
fn is_expanded(group: &Group, signature: &Record) -> bool
    requires { signature.now.rtype ≡ RRSIG }
    ensures { result ≡ expanded group.now signature.now }
{
    match signature.rdata().rrsig() {
        Some(rrsig) => rrsig.labels < group.owner().rrsig_label_count(),
        None => false,
    }
}
