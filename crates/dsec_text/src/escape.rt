//! Octets that stand for themselves or are escaped (RFC 1035 5.1).

ghost use Rattle.std.specs.Prelude.{◌≡◌, ◌+◌, ◌<◌, ◌≤◌, length, IfSome};
ghost use Rattle.dsec_text.specs.Escapes.{escape_at, front, is_between as is_between_octet, is_plain as is_plain_octet, octet_at};

use dsec_name::octet_of_digits;

/// Whether an octet stands between words: a blank, LF, `;`, `(` or `)`.
pub fn is_between(octet: u8) -> bool
    ensures { result ≡ is_between_octet octet }
{
    matches!(octet, b' ' | b'\t' | b'\n' | b';' | b'(' | b')')
}

/// Whether an octet stands for itself, in quotes or outside.
fn is_plain(octet: u8, quoted: bool) -> bool
    ensures { result ≡ is_plain_octet quoted octet }
{
    if octet == b'"' || octet == b'\\' {
        return false;
    }
    if quoted {
        octet != b'\n'
    } else {
        !is_between(octet)
    }
}

/// The octet that the front of a text writes, and how many octets it takes there.
pub fn octet(text: &[u8], quoted: bool) -> Option<(u8, usize)>
    ensures octet { result ≡ octet_at quoted text.now }
    ensures within { IfSome result (λ read. (0 < read.1) × (read.1 ≤ length text.now)) }
{
    let (&first, rest) = text.split_first()?;
    if is_plain(first, quoted) {
        return Some((first, 1));
    }
    if first != b'\\' {
        return None;
    }
    escape(rest)
}

/// The octet that the front of a text after `\` writes, and how many octets it takes with the `\`.
fn escape(text: &[u8]) -> Option<(u8, usize)>
    ensures octet { result ≡ escape_at text.now }
    ensures within { IfSome result (λ read. (0 < read.1) × (read.1 ≤ length text.now + 1)) }
{
    let (&first, rest) = text.split_first()?;
    if !first.is_ascii_digit() {
        return if first == b'\n' {
            None
        } else {
            Some((first, 2))
        };
    }
    let (&second, rest) = rest.split_first()?;
    let (&third, _) = rest.split_first()?;
    let octet = octet_of_digits(first, second, third)?;
    Some((octet, 4))
}

/// How many octets from the front on write octets.
pub fn front_size(text: &[u8], quoted: bool) -> usize
    ensures size { result ≡ (front quoted text.now).1 }
    ensures within { result ≤ length text.now }
{
    let mut rest = text;
    let mut size = 0;
    while let Some((_, taken)) = octet(rest, quoted) {
        let (_, after) = rest.split_at(taken);
        rest = after;
        size += taken;
    }
    size
}
