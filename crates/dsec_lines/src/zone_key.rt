//! The key of a zone, and what it has signed of itself.

/// A zone's key, of the tag 1296.
pub const KEY: &str = "example. 60 IN DNSKEY 257 3 13 AQI=";

/// A signature over the zone's key by itself, from the moment 0 to 1000.
pub const KEY_SIGNATURE: &str =
    "example. 60 IN RRSIG \\# 59 00300d0100000e10000003e8000000000510076578616d706c6500d1e2fde856a739996d3277787d3a44a18782ef123b6d97b89fe4bb25971dd172";
