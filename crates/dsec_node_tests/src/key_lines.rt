//! Keys, DS records and signatures, as lines.

/// Another key, of the tag 3351.
pub(crate) const OTHER_KEY: &str = "example. 60 IN DNSKEY \\# 6 0101030d0909";

/// A signature over both keys by the first.
pub(crate) const BOTH_SIGNED: &str =
    "example. 60 IN RRSIG \\# 59 00300d0100000e10000003e8000000000510076578616d706c65002b95bf0e268661ea8a05228c14f21ece4163caddce32fee100d94c5929fbda9a";

/// A signature over both keys by the other.
pub(crate) const BOTH_BY_OTHER: &str =
    "example. 60 IN RRSIG \\# 59 00300d0100000e10000003e8000000000d17076578616d706c6500aa585c00ceb51161039598ab49292416088f77864dd5069687ca0aa859f5b906";

/// A signature over the key by itself, with another zone as its signer.
pub(crate) const OF_ANOTHER_ZONE: &str =
    "example. 60 IN RRSIG \\# 57 00300d0100000e10000003e8000000000510056f746865720011d403aae1fb98da9659e030955f09b01e9dcfcffecfd4c96fbb46d0774149ec";

/// A signature over the key by itself, from the moment 0 to 400.
pub(crate) const EXPIRED: &str =
    "example. 60 IN RRSIG \\# 59 00300d0100000e1000000190000000000510076578616d706c65007d529b5f4890729ecdbed352c3b1bc165e26d490a92dfd902f775e97ff1e8f2e";

/// A signature over the key that is none.
pub(crate) const BAD: &str =
    "example. 60 IN RRSIG \\# 32 00300d0100000e10000003e8000000000510076578616d706c65006669727374";

/// Another signature over the key that is none.
pub(crate) const BAD_TOO: &str =
    "example. 60 IN RRSIG \\# 33 00300d0100000e10000003e8000000000510076578616d706c65007365636f6e64";

/// A DS record of the key, by SHA-1.
pub(crate) const SHA1_DS: &str =
    "example. 60 IN DS \\# 24 05100d01df3d7da41199394a430f9a3a8ef76d9f1b97cee6";

/// A DS record of the key, by SHA-256.
pub(crate) const SHA256_DS: &str =
    "example. 60 IN DS \\# 36 05100d022c6403bd20956140d202ec366555a5a934d05a03233d69ab380a7eea4eee3525";

/// A DS record of the key, by SHA-384.
pub(crate) const SHA384_DS: &str =
    "example. 60 IN DS \\# 52 05100d043d07e0766f790daa1e1e4149c69c356b025743efdc53b2deb3dfaf15971849f479b49d25a73d47a8339e879457597e49";

/// A DS record of the other key.
pub(crate) const OTHER_DS: &str =
    "example. 60 IN DS \\# 36 0d170d02c5b8ae7b9dfe2c0f1215113eb0e856d258f0affff60a1d7d6ba972242fad25db";

/// A DS record of an algorithm that isn't known here.
pub(crate) const UNKNOWN_ALGORITHM_DS: &str =
    "example. 60 IN DS \\# 36 050603028ac18149a21fc10c7928968e0e1d9b7a0f013aecad57f581d5025bf77f4f7cf1";

/// A DS record of the key, of a digest that isn't known here.
pub(crate) const UNKNOWN_DIGEST_DS: &str =
    "example. 60 IN DS \\# 36 05100d03e3b0c44298fc1c149afbf4c8996fb92427ae41e4649b934ca495991b7852b855";

/// A DS record of the key's data at another owner.
pub(crate) const OTHER_OWNERS_DS: &str =
    "example. 60 IN DS \\# 36 05100d0292aea1e092547be710965b5263aba2cbbe64df0d67a29ebda9907d9484e2c1c1";

/// A DS record with the key's algorithm and tag, and a digest of zeros.
pub(crate) const WRONG_DS: &str =
    "example. 60 IN DS \\# 36 05100d020000000000000000000000000000000000000000000000000000000000000000";

/// A DS record of the tag 3354, with a digest of zeros.
pub(crate) const SIX_DS: &str =
    "example. 60 IN DS \\# 36 0d1a0d020000000000000000000000000000000000000000000000000000000000000000";

/// A DS record of the fourth of them.
pub(crate) const FOURTH_DS: &str =
    "example. 60 IN DS \\# 36 0d1a0d02bc005e56bee717c6d1ff3d89bb61188f2988dd63fae5a05c82958ed2b168d856";

/// One of six keys of the tag 3354.
pub(crate) const SIX_1: &str = "example. 60 IN DNSKEY \\# 10 0101030d010203040506";

/// One of six keys of the tag 3354.
pub(crate) const SIX_2: &str = "example. 60 IN DNSKEY \\# 10 0101030d010205060304";

/// One of six keys of the tag 3354.
pub(crate) const SIX_3: &str = "example. 60 IN DNSKEY \\# 10 0101030d030401020506";

/// One of six keys of the tag 3354.
pub(crate) const SIX_4: &str = "example. 60 IN DNSKEY \\# 10 0101030d030405060102";

/// One of six keys of the tag 3354.
pub(crate) const SIX_5: &str = "example. 60 IN DNSKEY \\# 10 0101030d050601020304";

/// One of six keys of the tag 3354.
pub(crate) const SIX_6: &str = "example. 60 IN DNSKEY \\# 10 0101030d050603040102";

/// The six keys of the tag 3354.
pub(crate) const SIX: [&str; 6] = [SIX_1, SIX_2, SIX_3, SIX_4, SIX_5, SIX_6];

/// A key of the tag 2068.
pub(crate) const TWIN: &str = "example. 60 IN DNSKEY \\# 8 0101030d01020304";

/// Another key of the tag 2068.
pub(crate) const TWIN_TOO: &str = "example. 60 IN DNSKEY \\# 8 0101030d03040102";

/// A DS record of the first of these two.
pub(crate) const TWIN_DS: &str =
    "example. 60 IN DS \\# 36 08140d028677daff90c4f847d499554379a03c7df0c8ad0aff1af6b19abb52ab730194a0";

/// A DS record of the second of these two.
pub(crate) const TWIN_TOO_DS: &str =
    "example. 60 IN DS \\# 36 08140d020e147dbdd3120209d178323908f15874051fb59d6871dcb24128d16374c07c75";

/// A signature over both that is none.
pub(crate) const TWINS_BAD_1: &str =
    "example. 60 IN RRSIG \\# 32 00300d0100000e10000003e8000000000814076578616d706c65006669727374";

/// A signature over both that is none.
pub(crate) const TWINS_BAD_2: &str =
    "example. 60 IN RRSIG \\# 33 00300d0100000e10000003e8000000000814076578616d706c65007365636f6e64";

/// A signature over both that is none.
pub(crate) const TWINS_BAD_3: &str =
    "example. 60 IN RRSIG \\# 32 00300d0100000e10000003e8000000000814076578616d706c65007468697264";

/// A signature over both that is none.
pub(crate) const TWINS_BAD_4: &str =
    "example. 60 IN RRSIG \\# 33 00300d0100000e10000003e8000000000814076578616d706c6500666f75727468";

/// A signature over both by the second.
pub(crate) const TWINS_SIGNED: &str =
    "example. 60 IN RRSIG \\# 59 00300d0100000e10000003e8000000000814076578616d706c65000d06cb97ad5b27195559c653969fff2a482b5aeb2f58095d7d1d564613e0c570";

/// A signature that is none, by the zone's key.
pub(crate) const SIX_BAD: &str =
    "example. 60 IN RRSIG \\# 31 00300d0100000e10000003e8000000000510076578616d706c65006e6f6e65";

/// The key as an anchor of class CH.
pub(crate) const CHAOS_ANCHOR: &str = "example. 60 CH DNSKEY \\# 6 0101030d0102";

/// The key as an anchor of another zone.
pub(crate) const OTHERS_ANCHOR: &str = "other. 60 IN DNSKEY \\# 6 0101030d0102";
