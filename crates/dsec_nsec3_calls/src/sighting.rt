//! Which groups may deny by hashes (RFC 5155 3, 8.1, 8.2, RFC 9276 3.2).

ghost use Rattle.std.specs.Prelude.{◌≡◌, ◌≤◌, ◌∷◌, ◌++◌, List, ℕ, length, Some};
ghost use Rattle.std.specs.Option.{option_map};
ghost use Rattle.dsec_nodes.specs.ByDenial.{is_secure};
ghost use Rattle.dsec_nsec3.specs.Counting.{by_hash, by_label, by_owner, hashed_sighting, is_known as known, only_nsec3 as only};
ghost use Rattle.dsec_nsec3_calls.specs.Sightings.{sighting_view, test_view};
ghost use Rattle.dsec_nsec3_calls.specs.Sources.{limits_view};
ghost use Rattle.dsec_nsec3_calls.specs.Views.{evidence_of, hash_limits, is_label_above as label_above};
ghost use Rattle.dsec_spec.specs.Names.{Place, place};
ghost use Rattle.dsec_spec.specs.Numbers.{NSEC3};
ghost use Rattle.dsec_wire.specs.DataViews.{nsec3_view};

use crate::source::Source;
use dsec_chain::is_below;
use dsec_crypto::Verifier;
use dsec_group::{Group, Limits, ValidationState};
use dsec_name::Name;
use dsec_negative::JudgedGroup;
use dsec_nsec3_hash::{nsec3_label_to_hash, supported_nsec3_hash};
use dsec_number::Rtype;
use dsec_sorted::OwnerHash;
use dsec_wire::Nsec3;

/// Why a group ends a call.
#[derive(Clone, Copy)]
pub(crate) enum End {
    /// Its iterations are above the bogus limit.
    TooManyIterations,
    /// They are above the insecure limit, and not above the bogus one.
    ManyIterations,
    /// Its first label writes no hash.
    BadOwnerHash,
}

/// What a group is to a denial by hashes.
#[derive(Drop)]
pub(crate) enum Sighting<'a> {
    /// It doesn't count.
    Ignored,
    /// It ends the call.
    Stops(End),
    /// It counts, by the hash that its first label writes, and its data.
    Hashed(OwnerHash, Nsec3<'a>),
}

/// What the tests of a record come to.
#[derive(Drop)]
pub(crate) enum Test {
    /// It doesn't count.
    Fails,
    /// It ends the call.
    Ends(End),
    /// It counts, by this hash.
    Passes(OwnerHash),
}

/// What a group is to a denial of the class that the zone signed.
pub(crate) fn sighted<'a, V: Verifier>(
    source: &Source<'_, V>,
    judged: &'a JudgedGroup<V>,
) -> Sighting<'a>
    ensures { sighting_view (place source.now.signer.now) result ≡ hashed_sighting (limits_view source.now) source.now.class (place source.now.signer.now) (evidence_of judged.now) }
{
    let group = judged.group();
    if group.rtype() != Rtype::NSEC3 || group.class() != source.class || !is_shown(judged) {
        return Sighting::Ignored;
    }
    if !judged.is_signed_by(source.signer) || judged.is_expanded() {
        return Sighting::Ignored;
    }
    let Some(nsec3) = only_nsec3(group) else {
        return Sighting::Ignored;
    };
    match tested(group.owner(), &nsec3, source.signer, source.limits) {
        Test::Fails => Sighting::Ignored,
        Test::Ends(end) => Sighting::Stops(end),
        Test::Passes(hash) => Sighting::Hashed(hash, nsec3),
    }
}

/// Whether links show a group.
fn is_shown<V: Verifier>(judged: &JudgedGroup<V>) -> bool
    ensures { result ≡ is_secure judged.now.finding }
{
    judged.state() == ValidationState::Secure
}

/// What the group's record says, where it is the only one (RFC 5155 7.1).
fn only_nsec3(group: &Group) -> Option<Nsec3<'_>>
    requires { group.now.rtype ≡ NSEC3 }
    ensures { option_map nsec3_view result ≡ only group.now.records }
{
    match group.rr_set() {
        [one] => one.rdata().nsec3(),
        _ => None,
    }
}

/// The tests of a record: its owner is to be a label above the zone's name.
fn tested(owner: &Name, nsec3: &Nsec3<'_>, signer: &Name, limits: &Limits) -> Test
    ensures { test_view (place signer.now) (nsec3_view nsec3.now) result ≡ by_owner (hash_limits limits.now) (place signer.now) owner.now (Some (nsec3_view nsec3.now)) }
{
    if !is_label_above(owner, signer) {
        return Test::Fails;
    }
    let octets = owner.canonical_octets();
    tested_label(first_label(octets.as_slice()), nsec3, limits)
}

/// Whether an owner is a label above the zone's name.
fn is_label_above(owner: &Name, signer: &Name) -> bool
    ensures { result ≡ label_above (place signer.now) owner.now }
{
    owner.label_count() - 1 == signer.label_count() && is_below(owner, signer)
}

/// The first label of a name's octets on the wire; the name is to have one.
fn first_label(octets: &[u8]) -> &[u8]
    ensures label { (label rest : List ℕ) → octets.now ≡ length label ∷ label ++ rest → result.now ≡ label }
    ensures short { length result.now ≤ length octets.now }
{
    let Some((&size, after)) = octets.split_first() else {
        return octets;
    };
    let (label, _) = after.split_at(usize::from(size).min(after.len()));
    label
}

/// The tests of a record at this label above the zone's name: a hash algorithm and flags that are known, the iterations, the label, and a
/// next hash that is as long.
fn tested_label(label: &[u8], nsec3: &Nsec3<'_>, limits: &Limits) -> Test
    ensures { (zone : Place) → length label.now ≤ 255 → test_view zone (nsec3_view nsec3.now) result ≡ by_label (hash_limits limits.now) zone label.now (nsec3_view nsec3.now) }
{
    if !is_known(nsec3) {
        return Test::Fails;
    }
    if nsec3.iterations > limits.nsec3_iter_bogus {
        return Test::Ends(End::TooManyIterations);
    }
    if nsec3.iterations > limits.nsec3_iter_insecure {
        return Test::Ends(End::ManyIterations);
    }
    match nsec3_label_to_hash(label) {
        Ok(hash) => of_length(hash, nsec3),
        Err(_) => Test::Ends(End::BadOwnerHash),
    }
}

/// Whether the hash algorithm and the flags are known ones.
fn is_known(nsec3: &Nsec3<'_>) -> bool
    ensures { result ≡ known (nsec3_view nsec3.now).hashing }
{
    supported_nsec3_hash(nsec3.hash_algorithm) && nsec3.flags <= 1
}

/// The last test: the next hash is as long as the owner's.
fn of_length(hash: OwnerHash, nsec3: &Nsec3<'_>) -> Test
    ensures { (zone : Place) → test_view zone (nsec3_view nsec3.now) result ≡ by_hash zone (nsec3_view nsec3.now) (Some hash) }
{
    if hash.as_slice().len() == nsec3.next_owner.len() {
        Test::Passes(hash)
    } else {
        Test::Fails
    }
}
