//! What a signed NSEC3 record shows of a name (RFC 5155 8.9, RFC 6840 4.4, RFC 9276 3.2).

ghost use Rattle.std.specs.Prelude.{◌≡◌, List, ℕ};
ghost use Rattle.dsec_denial.specs.Bearings.{bearing_by};
ghost use Rattle.dsec_denial.specs.Reading.{decided_by};
ghost use Rattle.dsec_nodes.specs.MissingByHash.{by_hash_gap, by_iterations, by_own_hash};
ghost use Rattle.dsec_nodes.specs.Nodes.{Node};
ghost use Rattle.dsec_nodes.specs.World.{World};
ghost use Rattle.dsec_spec.specs.Names.{Place};
ghost use Rattle.dsec_spec.specs.Numbers.{RRSIG};
ghost use Rattle.dsec_spec.specs.Records as records;
ghost use Rattle.dsec_wire.specs.DataViews.{nsec3_view};

use crate::bearing::{Bearing, has};
use crate::decision::Decision;
use crate::expansion::is_expanded;
use dsec_cause::Cause;
use dsec_group::Group;
use dsec_node::Ground;
use dsec_number::Rtype;
use dsec_wire::{Nsec3, Record};

/// What a group shows by its good signature, whose NSEC3 record bears on the name so.
pub(crate) fn decide(
    bearing: Bearing,
    nsec3: &Nsec3<'_>,
    group: &Group,
    signature: &Record,
) -> Decision
    requires { signature.now.rtype ≡ RRSIG }
    ensures { (w : World) (zone : Node) (keys : List (List ℕ)) (name : Place) (key : records.Key) →
        decided_by w zone keys name group.now (signature.now, key) result ≡ bearing_by w zone keys name group.now (nsec3_view nsec3.now) bearing (signature.now, key) }
{
    match bearing {
        Bearing::Iterates(too_many) => iterating(too_many, group, signature),
        Bearing::Matches => matching(nsec3, group, signature),
        Bearing::Covers(redirects) => covering(nsec3, redirects, group, signature),
    }
}

/// What a signed record shows of more iterations than are followed.
fn iterating(too_many: bool, group: &Group, signature: &Record) -> Decision
    requires { signature.now.rtype ≡ RRSIG }
    ensures { (w : World) (zone : Node) (keys : List (List ℕ)) (name : Place) (key : records.Key) →
        decided_by w zone keys name group.now (signature.now, key) result ≡ by_iterations w zone keys name group.now too_many (signature.now, key) }
{
    if is_expanded(group, signature) {
        Decision::Passed(None)
    } else if too_many {
        Decision::Bogus(Cause::Nsec3IterationsTooHigh)
    } else {
        Decision::Insecure(Ground::Nsec3Iterates, Some(Cause::Nsec3IterationsTooHigh))
    }
}

/// What a signed record shows that matches the name.
fn matching(nsec3: &Nsec3<'_>, group: &Group, signature: &Record) -> Decision
    requires { signature.now.rtype ≡ RRSIG }
    ensures { (w : World) (zone : Node) (keys : List (List ℕ)) (name : Place) (key : records.Key) →
        decided_by w zone keys name group.now (signature.now, key) result ≡ by_own_hash w zone keys name group.now (nsec3_view nsec3.now) (signature.now, key) }
{
    if is_expanded(group, signature) {
        Decision::Passed(None)
    } else if has(nsec3, Rtype::DS) {
        Decision::Bogus(Cause::Nsec3ProvesDs)
    } else if has(nsec3, Rtype::SOA) {
        Decision::Bogus(Cause::Nsec3ForDsFromApex)
    } else if has(nsec3, Rtype::NS) {
        Decision::Insecure(Ground::Nsec3WithoutDs, None)
    } else {
        Decision::Within
    }
}

/// What a signed record shows that covers the name.
fn covering(nsec3: &Nsec3<'_>, redirects: bool, group: &Group, signature: &Record) -> Decision
    requires { signature.now.rtype ≡ RRSIG }
    ensures { (w : World) (zone : Node) (keys : List (List ℕ)) (name : Place) (key : records.Key) →
        decided_by w zone keys name group.now (signature.now, key) result ≡ by_hash_gap w zone keys name group.now (nsec3_view nsec3.now) redirects (signature.now, key) }
{
    if is_expanded(group, signature) {
        Decision::Passed(None)
    } else if nsec3.flags % 2 != 1 {
        Decision::Bogus(Cause::Nsec3ProvesNameMissingForDs)
    } else if redirects {
        Decision::Passed(None)
    } else {
        Decision::Insecure(Ground::Nsec3OptsOut, None)
    }
}
