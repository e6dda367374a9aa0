//! How numbers compare, as the clauses of functions.

ghost use Rattle.std.specs.Prelude.{◌≡◌, ◌↔◌, IsTrue};
ghost use Rattle.std.specs.Ordering.{nat_cmp};

use crate::algorithm::{DigestAlgorithm, Nsec3HashAlgorithm, SecurityAlgorithm};
use crate::class::Class;
use crate::error::UnknownWord;
use crate::rcode::Rcode;
use crate::rtype::Rtype;
use crate::serial::Serial;
use crate::timestamp::Timestamp;
use crate::ttl::Ttl;
use std::cmp::Ordering;

/// `==` on times to live is equality.
pub fn law_of_equal_ttls(ttl: Ttl, other: Ttl) -> bool
    ensures { IsTrue result ↔ (ttl ≡ other) }
{
    ttl == other
}

/// The order of times to live is that of their numbers.
pub fn law_of_ordered_ttls(ttl: Ttl, other: Ttl) -> Ordering
    ensures { result ≡ nat_cmp ttl other }
{
    ttl.cmp(&other)
}

/// `==` on types is equality.
pub fn law_of_equal_types(rtype: Rtype, other: Rtype) -> bool
    ensures { IsTrue result ↔ (rtype ≡ other) }
{
    rtype == other
}

/// The order of types is that of their numbers.
pub fn law_of_ordered_types(rtype: Rtype, other: Rtype) -> Ordering
    ensures { result ≡ nat_cmp rtype other }
{
    rtype.cmp(&other)
}

/// `==` on classes is equality.
pub fn law_of_equal_classes(class: Class, other: Class) -> bool
    ensures { IsTrue result ↔ (class ≡ other) }
{
    class == other
}

/// The order of classes is that of their numbers.
pub fn law_of_ordered_classes(class: Class, other: Class) -> Ordering
    ensures { result ≡ nat_cmp class other }
{
    class.cmp(&other)
}

/// `==` on rcodes is equality.
pub fn law_of_equal_rcodes(rcode: Rcode, other: Rcode) -> bool
    ensures { IsTrue result ↔ (rcode ≡ other) }
{
    rcode == other
}

/// The order of rcodes is that of their numbers.
pub fn law_of_ordered_rcodes(rcode: Rcode, other: Rcode) -> Ordering
    ensures { result ≡ nat_cmp rcode other }
{
    rcode.cmp(&other)
}

/// `==` on serial numbers is equality.
pub fn law_of_equal_serials(serial: Serial, other: Serial) -> bool
    ensures { IsTrue result ↔ (serial ≡ other) }
{
    serial == other
}

/// `==` on moments is equality.
pub fn law_of_equal_timestamps(moment: Timestamp, other: Timestamp) -> bool
    ensures { IsTrue result ↔ (moment ≡ other) }
{
    moment == other
}

/// `==` on algorithms of keys is equality.
pub fn law_of_equal_algorithms(algorithm: SecurityAlgorithm, other: SecurityAlgorithm) -> bool
    ensures { IsTrue result ↔ (algorithm ≡ other) }
{
    algorithm == other
}

/// The order of algorithms of keys is that of their numbers.
pub fn law_of_ordered_algorithms(algorithm: SecurityAlgorithm, other: SecurityAlgorithm) -> Ordering
    ensures { result ≡ nat_cmp algorithm other }
{
    algorithm.cmp(&other)
}

/// `==` on digests of DS records is equality.
pub fn law_of_equal_digests(digest: DigestAlgorithm, other: DigestAlgorithm) -> bool
    ensures { IsTrue result ↔ (digest ≡ other) }
{
    digest == other
}

/// The order of digests of DS records is that of their numbers.
pub fn law_of_ordered_digests(digest: DigestAlgorithm, other: DigestAlgorithm) -> Ordering
    ensures { result ≡ nat_cmp digest other }
{
    digest.cmp(&other)
}

/// `==` on hashes of NSEC3 records is equality.
pub fn law_of_equal_hashes(hash: Nsec3HashAlgorithm, other: Nsec3HashAlgorithm) -> bool
    ensures { IsTrue result ↔ (hash ≡ other) }
{
    hash == other
}

/// The order of hashes of NSEC3 records is that of their numbers.
pub fn law_of_ordered_hashes(hash: Nsec3HashAlgorithm, other: Nsec3HashAlgorithm) -> Ordering
    ensures { result ≡ nat_cmp hash other }
{
    hash.cmp(&other)
}

/// `==` on errors of words is equality.
pub fn law_of_equal_unknown_words(error: UnknownWord, other: UnknownWord) -> bool
    ensures { IsTrue result ↔ (error ≡ other) }
{
    error == other
}
