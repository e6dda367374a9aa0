//! What a signed NSEC record shows of a name (RFC 4035 5.2, RFC 6840 4.1, 4.4).

ghost use Rattle.std.specs.Prelude.{◌≡◌, List, ℕ};
ghost use Rattle.dsec_denial.specs.Reading.{by_above, decided_by, placed_at, signed_by};
ghost use Rattle.dsec_nodes.specs.MissingDs.{by_covering, by_matching};
ghost use Rattle.dsec_nodes.specs.Nodes.{Node};
ghost use Rattle.dsec_nodes.specs.World.{World};
ghost use Rattle.dsec_spec.specs.Names.{Place};
ghost use Rattle.dsec_spec.specs.Numbers.{RRSIG};
ghost use Rattle.dsec_spec.specs.Records as records;
ghost use Rattle.dsec_spec.specs.TypeBitmaps.{has_type};
ghost use Rattle.dsec_wire.specs.DataViews.{nsec_view};

use crate::expansion::is_expanded;
use crate::finding::{DsFinding, SignedAt};
use crate::pair::Pair;
use crate::reading::Reading;
use dsec_cause::Cause;
use dsec_group::Group;
use dsec_node::Ground;
use dsec_number::Rtype;
use dsec_sorted::RtypeBitmap;
use dsec_wire::{Nsec, Record};

/// What a signed record shows.
#[derive(Clone, Copy)]
pub(crate) enum Decision {
    /// The name is in the zone, and no other zone begins there.
    Within,
    /// No chain leads to the name: on what ground, and the cause, if one is told.
    Insecure(Ground, Option<Cause>),
    /// The record refutes that DS is missing.
    Bogus(Cause),
    /// It shows nothing, and why.
    Passed(Option<Cause>),
}

impl Decision {
    /// The finding with the indexes that it rests on.
    pub(crate) fn at(self, group: usize, pair: Pair) -> DsFinding
        ensures { result ≡ placed_at (record { group = group; signature = pair.signature; key = pair.key }) self }
    {
        let at = SignedAt {
            group,
            signature: pair.signature,
            key: pair.key,
        };
        match self {
            Decision::Within => DsFinding::Within(at),
            Decision::Insecure(basis, cause) => DsFinding::Insecure(at, basis, cause),
            Decision::Bogus(cause) => DsFinding::Bogus(cause),
            Decision::Passed(cause) => DsFinding::Passed(cause),
        }
    }
}

/// What a group shows by its good signature.
pub(crate) fn decide(reading: &Reading<'_>, group: &Group, signature: &Record) -> Decision
    requires { signature.now.rtype ≡ RRSIG }
    ensures { (w : World) (zone : Node) (keys : List (List ℕ)) (name : Place) (key : records.Key) →
        decided_by w zone keys name group.now (signature.now, key) result ≡ signed_by w zone keys name group.now reading.now (signature.now, key) }
{
    match reading {
        Reading::Nothing(cause) => Decision::Passed(*cause),
        Reading::At(nsec) => at_name(nsec, group, signature),
        Reading::Above(nsec, is_empty) => above_name(nsec, *is_empty, group, signature),
        Reading::Around => around_name(group, signature),
    }
}

/// What a signed record at the name shows.
fn at_name(nsec: &Nsec<'_>, group: &Group, signature: &Record) -> Decision
    requires { signature.now.rtype ≡ RRSIG }
    ensures { (w : World) (zone : Node) (keys : List (List ℕ)) (name : Place) (key : records.Key) →
        decided_by w zone keys name group.now (signature.now, key) result ≡ by_matching w zone keys name group.now (nsec_view nsec.now) (signature.now, key) }
{
    if is_expanded(group, signature) {
        Decision::Bogus(Cause::NsecForDsFromWildcard)
    } else if has(nsec, Rtype::DS) {
        Decision::Bogus(Cause::NsecProvesDs)
    } else if has(nsec, Rtype::SOA) {
        Decision::Bogus(Cause::NsecForDsFromApex)
    } else if has(nsec, Rtype::NS) {
        Decision::Insecure(Ground::NsecWithoutDs, None)
    } else {
        Decision::Within
    }
}

/// What a signed record strictly above the name shows.
fn above_name(nsec: &Nsec<'_>, is_empty: bool, group: &Group, signature: &Record) -> Decision
    requires { signature.now.rtype ≡ RRSIG }
    ensures { (w : World) (zone : Node) (keys : List (List ℕ)) (name : Place) (key : records.Key) →
        decided_by w zone keys name group.now (signature.now, key) result ≡ by_above w zone keys name group.now (nsec_view nsec.now) is_empty (signature.now, key) }
{
    if is_expanded(group, signature) {
        Decision::Bogus(Cause::PrefixNsecFromWildcard)
    } else if has(nsec, Rtype::DNAME) {
        Decision::Bogus(Cause::PrefixNsecIsDname)
    } else if has(nsec, Rtype::NS) && !has(nsec, Rtype::SOA) {
        Decision::Bogus(Cause::PrefixNsecIsDelegation)
    } else if is_empty {
        Decision::Within
    } else {
        Decision::Passed(Some(Cause::NsecNotUsable))
    }
}

/// What a signed record shows that covers the name, and whose next name is under it.
fn around_name(group: &Group, signature: &Record) -> Decision
    requires { signature.now.rtype ≡ RRSIG }
    ensures { (w : World) (zone : Node) (keys : List (List ℕ)) (name : Place) (key : records.Key) →
        decided_by w zone keys name group.now (signature.now, key) result ≡ by_covering w zone keys name group.now (signature.now, key) }
{
    if is_expanded(group, signature) {
        Decision::Bogus(Cause::EmptyNonTerminalNsecFromWildcard)
    } else {
        Decision::Within
    }
}

/// Whether the record's owner has the type.
fn has(nsec: &Nsec<'_>, rtype: Rtype) -> bool
    ensures { result ≡ has_type nsec.now.types.now rtype }
{
    let bitmap = RtypeBitmap { octets: nsec.types };
    bitmap.contains(rtype)
}
