//! Addresses as text.

ghost use Rattle.std.specs.Prelude.{◌≡◌, ◌<◌, IfSome, MatchOption, ℕ, List, length, position};
ghost use Rattle.std.specs.Option.{option_map};
ghost use Rattle.dsec_zonefile.specs.Addresses.{WritesIpv6, before_dot as number_before_dot, ipv4_in, is_dot, ipv6_in};

use dsec_word::number;
use std::net::Ipv6Addr;

/// The octets of an IPv4 address: four decimal numbers with dots between them.
pub fn ipv4(text: &[u8]) -> Option<[u8; 4]>
    ensures { result ≡ ipv4_in text.now }
{
    let (a, rest) = before_dot(text)?;
    let (b, rest) = before_dot(rest)?;
    let (c, rest) = before_dot(rest)?;
    let d = number(rest, 255)?;
    Some([a, b, c, d as u8])
}

/// The number before the first dot, and the text after the dot.
fn before_dot(text: &[u8]) -> Option<(u8, &[u8])>
    ensures { option_map (λ read. (read.0, read.1.now)) result ≡ number_before_dot text.now }
{
    let at = dot_at(text)?;
    let (front, _) = text.split_at(at);
    let (_, after) = text.split_at(at + 1);
    match number(front, 255) {
        Some(number) => Some((number as u8, after)),
        None => None,
    }
}

/// The place of the first dot.
fn dot_at(text: &[u8]) -> Option<usize>
    ensures place { result ≡ position is_dot text.now }
    ensures within { IfSome result (λ at. at < length text.now) }
{
    text.iter().position(|&octet| octet == b'.')
}

/// The octets of an IPv6 address (RFC 4291 2.2).
pub fn ipv6(text: &[u8]) -> Option<[u8; 16]>
    ensures value { result ≡ ipv6_in text.now }
    ensures meaning { MatchOption result ((octets : List ℕ) → ¬ (WritesIpv6 text.now octets)) (λ octets. WritesIpv6 text.now octets) }
{
    match Ipv6Addr::parse_ascii(text) {
        Ok(address) => Some(address.octets()),
        Err(_) => None,
    }
}
