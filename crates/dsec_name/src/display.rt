//! Names as text: letters, digits, `-`, `_` and `*` as themselves, any other octet as `\` and three digits
//! of its value, and a `.` after each label (RFC 1035 5.1).

ghost use Rattle.std.specs.Prelude.{All, IfSome, Some, ◌≡◌, ◌<◌, ◌++◌, ◌∷◌, []};
ghost use Rattle.std.specs.Fmt.{WritesOnOk};
ghost use Rattle.std.specs.List.{flat_map, list_all};
ghost use Rattle.dsec_name.specs.Keys.{labels_of};
ghost use Rattle.dsec_name.specs.NameDisplay.{is_shown as shown, label_text, name_text, octet_text, octets_text};

use crate::name::Name;
use std::fmt;

impl fmt::Display for Name {
    ghost output = { λ name. Some (name_text name) };

    fn fmt<W: fmt::Write>(&self, f: &mut fmt::Formatter<W>) -> fmt::Result {
        write_name(f, self)
    }
}

impl fmt::Debug for Name {
    ghost debug_output = { λ name. Some (name_text name) };

    fn fmt<W: fmt::Write>(&self, f: &mut fmt::Formatter<W>) -> fmt::Result {
        write_name(f, self)
    }
}

/// Writes a name.
fn write_name<W: fmt::Write>(f: &mut fmt::Formatter<W>, name: &Name) -> fmt::Result
    ensures { WritesOnOk W.write_str_gives f.old result (name_text name.now) f.new }
{
    if name.is_root() {
        return f.write_str(".");
    }
    write_labels(f, name.octets())
}

/// Writes the labels that octets are made of, each with its length before it.
fn write_labels<W: fmt::Write>(f: &mut fmt::Formatter<W>, octets: &[u8]) -> fmt::Result
    ensures { WritesOnOk W.write_str_gives f.old result (flat_map label_text (labels_of octets.now)) f.new }
{
    let mut rest = octets;
    while let Some((&length, after)) = rest.split_first() {
        let (label, others) = after.split_at(usize::from(length).min(after.len()));
        write_label(f, label)?;
        rest = others;
    }
    Ok(())
}

/// Writes a label, and a `.` after it.
fn write_label<W: fmt::Write>(f: &mut fmt::Formatter<W>, label: &[u8]) -> fmt::Result
    ensures { WritesOnOk W.write_str_gives f.old result (label_text label.now) f.new }
{
    if let Some(text) = plain_text(label) {
        return write_plain(f, text);
    }
    for octet in label {
        write_octet(f, *octet)?;
    }
    f.write_str(".")
}

/// Writes a label whose text is at hand, and a `.` after it.
fn write_plain<W: fmt::Write>(f: &mut fmt::Formatter<W>, text: &str) -> fmt::Result
    ensures { WritesOnOk W.write_str_gives f.old result (text.now ++ 46 ∷ []) f.new }
{
    f.write_str(text)?;
    f.write_str(".")
}

/// The text of a label each of whose octets is written as itself; none of any other.
#[tactic(auto, using(crate::proofs::NameShown::plain_label))]
fn plain_text(label: &[u8]) -> Option<&str>
    ensures { IfSome result (λ text. text.now ≡ octets_text label.now) }
{
    if !is_plain(label) {
        return None;
    }
    match str::from_utf8(label) {
        Ok(text) => Some(text),
        Err(_) => None,
    }
}

/// Whether each octet of a label is written as itself.
fn is_plain(label: &[u8]) -> bool
    ensures { result ≡ list_all shown label.now }
{
    label.iter().all(|octet| is_shown(*octet))
}

/// Whether an octet is written as itself.
fn is_shown(octet: u8) -> bool
    ensures { result ≡ shown octet }
{
    octet.is_ascii_alphanumeric() || octet == b'-' || octet == b'_' || octet == b'*'
}

/// Writes an octet of a label.
fn write_octet<W: fmt::Write>(f: &mut fmt::Formatter<W>, octet: u8) -> fmt::Result
    ensures { WritesOnOk W.write_str_gives f.old result (octet_text octet) f.new }
{
    if is_shown(octet) {
        return f.write_char(char::from(octet));
    }
    f.write_str("\\")?;
    f.write_char(char::from(b'0' + octet / 100))?;
    f.write_char(char::from(b'0' + octet / 10 % 10))?;
    f.write_char(char::from(b'0' + octet % 10))
}

/// That octets are octets.
pub(crate) fn in_range(octets: &[u8])
    ensures { All (λ octet. octet < 256) octets.now }
{}
