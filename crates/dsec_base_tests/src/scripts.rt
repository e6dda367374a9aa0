//! What a script says, part for part; `dsec_rows` shows how scripts are read and refused.

use dsec_name::Name;
use dsec_number::{Class, Rtype};
use dsec_script::{Item, Script, read_script};
use dsec_wire::Record;
use std::alloc::Global;

/// Two anchors, three replies of which the second is for the first one's question, and three messages.
const SCRIPT: &[u8] = b"# comment\r
now 5
anchor Example. 3600 CH DNSKEY 257 3 13 AQID more
anchor b\\. TXT \"x y\" z
reply . A 01
reply . a 02
reply . NS
now 6
message aB09
 message
now 18446744073709551615
message 7f";

fn is_anchor(anchor: &Record, class: Class, ttl: u32, octets: &[u8]) -> bool {
    anchor.class() == class
        && anchor.ttl().as_secs() == ttl
        && anchor.rdata().octets().as_slice() == octets
}

fn has_anchors(script: &Script) -> bool {
    match script.anchors.as_slice() {
        [key, text] => {
            is_anchor(
                key,
                Class::CH,
                3600,
                b"\x01\x01\x03\x0d\x01\x02\x03\x9a\x8a\xde",
            ) && is_anchor(text, Class::IN, 0, b"\x03x y\x01z")
        }
        _ => false,
    }
}

fn has_replies(script: &Script, root: &Name) -> bool {
    script.replies.reply(root, Rtype::A) == Some(b"\x01".as_slice())
        && script.replies.reply(root, Rtype::NS) == Some(b"".as_slice())
        && script.replies.reply(root, Rtype::DS).is_none()
}

fn is_item(item: &Item, seconds: u64, octets: &[u8]) -> bool {
    item.seconds == seconds && item.octets.as_slice() == octets
}

fn has_items(script: &Script) -> bool {
    match script.items.as_slice() {
        [first, second, third] => {
            is_item(first, 6, b"\xab\x09")
                && is_item(second, 6, b"")
                && is_item(third, u64::MAX, b"\x7f")
        }
        _ => false,
    }
}

/// Whether the script has its parts.
fn has_parts(alloc: Global) -> bool {
    match read_script(alloc, SCRIPT) {
        Ok(script) => {
            has_anchors(&script) && has_items(&script) && has_replies(&script, &Name::root(alloc))
        }
        Err(_) => false,
    }
}

#[test]
fn parts_of_a_script(rt: HostRuntime) {
    assert!(rt; has_parts(rt.alloc()));
}
