//! What the views find in data, field by field.

use dsec_base::{
    Data, Dnskey, Ds, Name, NameRef, Nsec, Nsec3, Nsec3param, Octets, Opt, Rrsig, Rtype, Soa,
};
use std::alloc::Global;

/// `NS.EXAMPLE.`
const NAME: &str = "024e53074558414d504c4500";

const SOA: &str =
    "024e53074558414d504c45000a486f73746d6173746572074558414d504c45000102030400001c2000000e10001275000000012c";

const DS: &str = "0e1d0f023aa5ab37efce57f737fc1627013fee07bdf241bd10f3b1964ab55c78e79a304b";

const KEY: &str = "0101030f974d96a22d224bc01adb915091477d44ccd91c9a41a11430010117d52c59240e";

const SIGNATURE: &str = "00010d0200000e10659200806567d7001234015a074558414d504c4500a1b2c3d4";

const NSEC: &str = "04486f7374074558414d504c45000006400100000003";

const NSEC3: &str =
    "0101000c04aabbccdd14174eb2409fe28bcb4887a1836f957f0a8425e27b000722010000000290";

const NSEC3PARAM: &str = "0100000c04aabbccdd";

const OPTIONS: &str = "000f00080012616263646566000a0000000b";

/// The digest, the key and the hash of the vectors.
const DIGEST: &[u8] = &[
    0x3a, 0xa5, 0xab, 0x37, 0xef, 0xce, 0x57, 0xf7, 0x37, 0xfc, 0x16, 0x27, 0x01, 0x3f, 0xee, 0x07,
    0xbd, 0xf2, 0x41, 0xbd, 0x10, 0xf3, 0xb1, 0x96, 0x4a, 0xb5, 0x5c, 0x78, 0xe7, 0x9a, 0x30, 0x4b,
];

const PUBLIC_KEY: &[u8] = &[
    0x97, 0x4d, 0x96, 0xa2, 0x2d, 0x22, 0x4b, 0xc0, 0x1a, 0xdb, 0x91, 0x50, 0x91, 0x47, 0x7d, 0x44,
    0xcc, 0xd9, 0x1c, 0x9a, 0x41, 0xa1, 0x14, 0x30, 0x01, 0x01, 0x17, 0xd5, 0x2c, 0x59, 0x24, 0x0e,
];

const HASH: &[u8] = &[
    0x17, 0x4e, 0xb2, 0x40, 0x9f, 0xe2, 0x8b, 0xcb, 0x48, 0x87, 0xa1, 0x83, 0x6f, 0x95, 0x7f, 0x0a,
    0x84, 0x25, 0xe2, 0x7b,
];

/// Data, and whether a view finds something in them.
const VECTORS: [(Rtype, &str, bool); 13] = [
    (Rtype::SOA, SOA, true),
    (Rtype::CNAME, NAME, true),
    (Rtype::DNAME, NAME, true),
    (Rtype::NS, NAME, false),
    (Rtype::DS, DS, true),
    (Rtype::DNSKEY, KEY, true),
    (Rtype::CDS, DS, false),
    (Rtype::RRSIG, SIGNATURE, true),
    (Rtype::NSEC, NSEC, true),
    (Rtype::NSEC3, NSEC3, true),
    (Rtype::NSEC3PARAM, NSEC3PARAM, true),
    (Rtype::OPT, OPTIONS, true),
    (Rtype::A, OPTIONS, false),
];

/// Whether the name is this one.
fn is(alloc: Global, name: NameRef<'_>, text: &str) -> bool {
    match Name::parse(alloc, text) {
        Ok(want) => name.is(&want),
        Err(_) => false,
    }
}

fn says_soa(alloc: Global, soa: &Soa<'_>) -> bool {
    let mname = is(alloc, soa.mname, "ns.example.");
    let rname = is(alloc, soa.rname, "hostmaster.example.");
    let times = (
        soa.refresh.as_secs(),
        soa.retry.as_secs(),
        soa.expire.as_secs(),
    );
    let others = (soa.serial.to_int(), soa.minimum.as_secs());
    mname && rname && times == (7200, 3600, 1_209_600) && others == (0x0102_0304, 300)
}

fn says_ds(ds: &Ds<'_>) -> bool {
    let numbers = (ds.key_tag, ds.algorithm.to_int(), ds.digest_type.to_int());
    numbers == (3613, 15, 2) && ds.digest == DIGEST
}

fn says_dnskey(key: &Dnskey<'_>) -> bool {
    let numbers = (key.flags, key.protocol, key.algorithm.to_int());
    numbers == (257, 3, 15) && key.public_key == PUBLIC_KEY
}

fn says_rrsig(alloc: Global, rrsig: &Rrsig<'_>) -> bool {
    let numbers = (
        rrsig.type_covered.to_int(),
        rrsig.algorithm.to_int(),
        rrsig.labels,
    );
    let times = (rrsig.expiration.to_int(), rrsig.inception.to_int());
    is(alloc, rrsig.signer_name, "z.example.")
        && numbers == (1, 13, 2)
        && rrsig.original_ttl.as_secs() == 3600
        && times == (0x6592_0080, 0x6567_d700)
        && rrsig.key_tag == 4660
        && rrsig.signature == [0xa1, 0xb2, 0xc3, 0xd4].as_slice()
}

fn says_nsec(alloc: Global, nsec: &Nsec<'_>) -> bool {
    let next_name = is(alloc, nsec.next_name, "host.example.");
    next_name && nsec.types == [0, 6, 0x40, 1, 0, 0, 0, 3].as_slice()
}

fn says_nsec3(nsec3: &Nsec3<'_>) -> bool {
    let numbers = (nsec3.hash_algorithm.to_int(), nsec3.flags, nsec3.iterations);
    numbers == (1, 1, 12)
        && nsec3.salt == [0xaa, 0xbb, 0xcc, 0xdd].as_slice()
        && nsec3.next_owner == HASH
        && nsec3.types == [0, 7, 0x22, 1, 0, 0, 0, 2, 0x90].as_slice()
}

fn says_nsec3param(nsec3param: &Nsec3param<'_>) -> bool {
    let (flags, iterations) = (nsec3param.flags, nsec3param.iterations);
    let numbers = (nsec3param.hash_algorithm.to_int(), flags, iterations);
    numbers == (1, 0, 12) && nsec3param.salt == [0xaa, 0xbb, 0xcc, 0xdd].as_slice()
}

/// Whether the view of the data says what its vector does.
fn says(alloc: Global, rdata: &Data) -> bool {
    if let Some(soa) = rdata.soa() {
        return says_soa(alloc, &soa);
    }
    if let Some(cname) = rdata.cname() {
        return is(alloc, cname.cname, "ns.example.");
    }
    if let Some(dname) = rdata.dname() {
        return is(alloc, dname.dname, "ns.example.");
    }
    if let Some(rrsig) = rdata.rrsig() {
        return says_rrsig(alloc, &rrsig);
    }
    if let Some(nsec) = rdata.nsec() {
        return says_nsec(alloc, &nsec);
    }
    says_octets(rdata)
}

/// The same of the views without names.
fn says_octets(rdata: &Data) -> bool {
    if let Some(ds) = rdata.ds() {
        return says_ds(&ds);
    }
    if let Some(key) = rdata.dnskey() {
        return says_dnskey(&key) && key.key_tag() == 3613;
    }
    if let Some(nsec3) = rdata.nsec3() {
        return says_nsec3(&nsec3);
    }
    if let Some(nsec3param) = rdata.nsec3param() {
        return says_nsec3param(&nsec3param);
    }
    match rdata.opt() {
        Some(opt) => opt.options.len() == 18,
        None => false,
    }
}

/// Whether the view of data of the type says what its vector does, or there is none where none is wanted.
fn is_viewed(alloc: Global, rtype: Rtype, text: &str, is_found: bool) -> bool {
    match hex::decode(alloc, text) {
        Ok(octets) if Data::is_readable(rtype, &octets) => {
            says(alloc, &Data::new(rtype, Octets::new(octets))) == is_found
        }
        _ => false,
    }
}

#[test]
fn each_view(rt: HostRuntime) {
    for (rtype, text, is_found) in VECTORS.iter() {
        assert!(rt; is_viewed(rt.alloc(), *rtype, text, *is_found), "{text}");
    }
}

/// Options, and the first one's code and octets with what is left behind it (RFC 6891 6.1.2).
const FIRST: [(&[u8], u16, &[u8], &[u8]); 2] = [
    (
        b"\0\x0f\0\x02\0\x06\0\x0a\0\0",
        15,
        b"\0\x06",
        b"\0\x0a\0\0",
    ),
    (b"\x01\x0a\0\0\xff", 266, b"", b"\xff"),
];

fn first_is(options: &[u8], code: u16, octets: &[u8], left: &[u8]) -> bool {
    match (Opt { options }).first_option() {
        Some((option, rest)) => option.code == code && option.octets == octets && rest == left,
        None => false,
    }
}

/// Octets that begin with no option.
const NO_OPTION: [&[u8]; 4] = [b"", b"\0", b"\0\x0a\0", b"\0\x0a\0\x02a"];

#[test]
fn first_options(rt: HostRuntime) {
    for (options, code, octets, left) in FIRST.iter() {
        assert!(rt; first_is(options, *code, octets, left));
    }
    for options in NO_OPTION.iter() {
        assert!(rt; (Opt { options }).first_option().is_none());
    }
}
