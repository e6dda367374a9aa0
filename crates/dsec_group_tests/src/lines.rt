//! Lines of zone text that several tests share.

/// The key without the zone flag, of the tag 1040.
pub(crate) const NO_ZONE_KEY: &str = "example. 60 IN DNSKEY 1 3 13 AQI=";

/// An address, whose TTL isn't the one that is signed.
pub(crate) const ADDRESS: &str = "www.example. 60 IN A 192.0.2.1";

/// A signature over the address by the zone's key, from the moment 0 to 1000, whose signer has a letter in upper case.
pub(crate) const GOOD: &str =
    "www.example. 60 IN RRSIG \\# 59 00010d0200000e10000003e8000000000510074578616d706c65005740ff5d596306bfe2c5c7bd74ece6c7082af619d51f42ffbb83f974b9ca9083";
