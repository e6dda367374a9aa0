//! The NSEC3 records of RFC 5155 appendix A, without Opt-Out but where it's said, each with a signature by the zone's key. Hashes are SHA-1
//! sums and signatures SHA-256 sums, made with Python's hashlib.

use crate::reply::Signed;

/// At the hash of `example.`.
pub(crate) const AT_APEX: Signed = [
    "0p9mhaveqvm6t7vbl5lop2u3t2rp3tom.example. 3600 IN NSEC3 \\# 39 0100000c04aabbccdd14174eb2409fe28bcb4887a1836f957f0a8425e27b000722010000000290",
    "0p9mhaveqvm6t7vbl5lop2u3t2rp3tom.example. 3600 IN RRSIG \\# 59 00320d0200000e10000003e8000000000510076578616d706c650011fb25bc3034dc9cfd50c79382eba8f32c7914b39388d7e33c51bfc5bac4acbe",
];

/// At the hash of `ns1.example.`.
pub(crate) const AT_NS1: Signed = [
    "2t7b4g4vsa5smi47k61mv5bv1a22bojr.example. 3600 IN NSEC3 \\# 38 0100000c04aabbccdd1417f3df17b2b2adaef615257de4d2020b80ac6c7c0006400000000002",
    "2t7b4g4vsa5smi47k61mv5bv1a22bojr.example. 3600 IN RRSIG \\# 59 00320d0200000e10000003e8000000000510076578616d706c650047bb8469f0038bf478e684634e51bc8222b50cd257ff2d9f9b3056819247db71",
];

/// At the hash of `a.example.`; those of `c.example.` and `*.x.w.example.` are in its gap.
pub(crate) const AT_A: Signed = [
    "35mthgpgcu1qg68fab165klnsnk3dpvl.example. 3600 IN NSEC3 \\# 38 0100000c04aabbccdd14593d6419d08c5bc35dca0a4dcb7ed5c131be25250006200000000012",
    "35mthgpgcu1qg68fab165klnsnk3dpvl.example. 3600 IN RRSIG \\# 59 00320d0200000e10000003e8000000000510076578616d706c6500cf0bbaf0bf6275e3edaf39c97c462e6003edbea3b60cc77d55df1d142d493e14",
];

/// At the hash of `x.w.example.`.
pub(crate) const AT_XW: Signed = [
    "b4um86eghhds6nea196smvmlo4ors995.example. 3600 IN NSEC3 \\# 38 0100000c04aabbccdd1484dda71446cd56f0c116a57254baef69d09bce120006000100000002",
    "b4um86eghhds6nea196smvmlo4ors995.example. 3600 IN RRSIG \\# 59 00320d0200000e10000003e8000000000510076578616d706c6500c8fa81d9f290275556d67bd19d1104ad5100ed873a454c4fdede8dd1e8efbb95",
];

/// At the hash of `y.w.example.`, an empty non-terminal.
pub(crate) const AT_YW: Signed = [
    "ji6neoaepv8b5o6k4ev33abha8ht9fgc.example. 3600 IN NSEC3 \\# 30 0100000c04aabbccdd14a23cd75bf90cc4f3ba069b979e04ffc8ee891511",
    "ji6neoaepv8b5o6k4ev33abha8ht9fgc.example. 3600 IN RRSIG \\# 59 00320d0200000e10000003e8000000000510076578616d706c65004468fb64c48a2383b6b17a282d46af0e03224b032808f43489deef8bf5440417",
];

/// At the hash of `w.example.`, an empty non-terminal.
pub(crate) const AT_W: Signed = [
    "k8udemvp1j2f7eg6jebps17vp3n8i58h.example. 3600 IN NSEC3 \\# 30 0100000c04aabbccdd14d0093a31dfd7ede41760091876d16a1a3009c8bb",
    "k8udemvp1j2f7eg6jebps17vp3n8i58h.example. 3600 IN RRSIG \\# 59 00320d0200000e10000003e8000000000510076578616d706c65007a4383d0a63e298606d5698ed5845d35dd845b03941b1637f082a71a4b472298",
];

/// At the hash of `ns2.example.`; that of `z.w.example.` is in its gap.
pub(crate) const AT_NS2: Signed = [
    "q04jkcevqvmu85r014c7dkba38o0ji5r.example. 3600 IN NSEC3 \\# 38 0100000c04aabbccdd14d946bd1d8c17bf6f2dfe2e196b1b2edf13da25d70006400000000002",
    "q04jkcevqvmu85r014c7dkba38o0ji5r.example. 3600 IN RRSIG \\# 59 00320d0200000e10000003e8000000000510076578616d706c6500c4e61a39d12ea7060d4edce5df6a6e8d9ad28e94a6d6d7fc3ed091cbc3b9c9b3",
];

/// At the hash of `*.w.example.`.
pub(crate) const AT_STAR: Signed = [
    "r53bq7cc2uvmubfu5ocmm6pers9tk9en.example. 3600 IN NSEC3 \\# 38 0100000c04aabbccdd14e988472f544ae4b65d4839212fecd3c4cc2b563f0006000100000002",
    "r53bq7cc2uvmubfu5ocmm6pers9tk9en.example. 3600 IN RRSIG \\# 59 00320d0200000e10000003e8000000000510076578616d706c6500e8575b602ce320c22693816de719b9105aa5caf62df8e44390ccf4466e5086e7",
];

/// At the hash of `a.example.`, with Opt-Out.
pub(crate) const OPEN_AT_A: Signed = [
    "35mthgpgcu1qg68fab165klnsnk3dpvl.example. 3600 IN NSEC3 \\# 38 0101000c04aabbccdd14593d6419d08c5bc35dca0a4dcb7ed5c131be25250006200000000012",
    "35mthgpgcu1qg68fab165klnsnk3dpvl.example. 3600 IN RRSIG \\# 59 00320d0200000e10000003e8000000000510076578616d706c6500c516a7198c144f8fdb8d35dfc83ac0da80fb8107370c9bdbf10a719bd92d5aee",
];

/// At the hash of `ns2.example.`, with Opt-Out.
pub(crate) const OPEN_AT_NS2: Signed = [
    "q04jkcevqvmu85r014c7dkba38o0ji5r.example. 3600 IN NSEC3 \\# 38 0101000c04aabbccdd14d946bd1d8c17bf6f2dfe2e196b1b2edf13da25d70006400000000002",
    "q04jkcevqvmu85r014c7dkba38o0ji5r.example. 3600 IN RRSIG \\# 59 00320d0200000e10000003e8000000000510076578616d706c65004bb9f75b4ec26b5ddcf6cc33b41f35b3ddd9c23f5ea4dd64bd736e446a683f32",
];

/// At the hash of `example.`, with 101 iterations.
pub(crate) const SLOW_AT_APEX: Signed = [
    "0p9mhaveqvm6t7vbl5lop2u3t2rp3tom.example. 3600 IN NSEC3 \\# 39 0100006504aabbccdd14174eb2409fe28bcb4887a1836f957f0a8425e27b000722010000000290",
    "0p9mhaveqvm6t7vbl5lop2u3t2rp3tom.example. 3600 IN RRSIG \\# 59 00320d0200000e10000003e8000000000510076578616d706c6500bb6ae5b22321d4a30b03156d6bfdb7244d9950436173b5c97518c6cbf38de63e",
];

/// At the hash of `example.`, with 501 iterations.
pub(crate) const SLOWER_AT_APEX: Signed = [
    "0p9mhaveqvm6t7vbl5lop2u3t2rp3tom.example. 3600 IN NSEC3 \\# 39 010001f504aabbccdd14174eb2409fe28bcb4887a1836f957f0a8425e27b000722010000000290",
    "0p9mhaveqvm6t7vbl5lop2u3t2rp3tom.example. 3600 IN RRSIG \\# 59 00320d0200000e10000003e8000000000510076578616d706c650019685b5cf46a14e4af195d04f4b24725d790b4b36d6216a1c6ebf2a3e2bc1787",
];
