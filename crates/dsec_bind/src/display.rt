//! DNSKEY records, written as BIND writes them.

ghost use Rattle.std.specs.Prelude.{◌≡◌, ◌++◌, Some, codes};
ghost use Rattle.dsec_spec.specs.Numbers.{DNSKEY};
ghost use Rattle.std.specs.Fmt.{WritesOnOk};
ghost use Rattle.base64.specs.Engines.{standard};
ghost use Rattle.base64.specs.GeneralPurpose.{encode_of};
ghost use Rattle.dsec_wire.specs.Views.{key_view};
ghost use Rattle.dsec_bind.specs.KeyDisplay.{bind_text, line_back, line_front, shown};

use base64::display::Base64Display;
use base64::engine::general_purpose::STANDARD;
use dsec_name::Name;
use dsec_wire::{Dnskey, Record};
use std::fmt;

/// A DNSKEY record that displays as BIND writes it: `<name> IN DNSKEY <flags> <protocol> <algorithm> <base64>`
/// and LF. The record's TTL isn't written, and its class is written as IN.
#[derive(Clone, Copy)]
pub struct BindDisplay<'a> {
    owner: &'a Name,
    key: Dnskey<'a>,
}

/// The record, to be displayed as BIND writes it. No memory is taken.
pub fn display_as_bind(dnskey: &Record) -> BindDisplay<'_>
    requires { dnskey.now.rtype ≡ DNSKEY }
    ensures { bind_text dnskey.now ≡ Some (shown result) }
{
    let Some(key) = dnskey.rdata().dnskey() else {
        unreachable!();
    };
    BindDisplay {
        owner: dnskey.owner(),
        key,
    }
}

impl fmt::Display for BindDisplay<'_> {
    ghost output = { λ it. Some (shown it) };

    #[tactic(auto, using(crate::proofs::DisplayLemmas::line_pieces))]
    fn fmt<W: fmt::Write>(&self, f: &mut fmt::Formatter<W>) -> fmt::Result {
        write_front(f, self.owner, self.key.flags)?;
        write_back(f, &self.key)
    }
}

/// Writes the words of a record up to its key's flags.
fn write_front<W: fmt::Write>(f: &mut fmt::Formatter<W>, owner: &Name, flags: u16) -> fmt::Result
    ensures { WritesOnOk W.write_str_gives f.old result (line_front owner.now flags) f.new }
{
    write!(f, "{owner} IN DNSKEY {flags} ")
}

/// Writes the words after them, and LF.
fn write_back<W: fmt::Write>(f: &mut fmt::Formatter<W>, key: &Dnskey<'_>) -> fmt::Result
    ensures { WritesOnOk W.write_str_gives f.old result (line_back (key_view key.now)) f.new }
{
    let (protocol, algorithm) = (key.protocol, key.algorithm.to_int());
    write!(f, "{protocol} {algorithm} ")?;
    write_base64(f, key.public_key)
}

/// Writes octets in base64, and LF.
fn write_base64<W: fmt::Write>(f: &mut fmt::Formatter<W>, octets: &[u8]) -> fmt::Result
    ensures { WritesOnOk W.write_str_gives f.old result (encode_of standard octets.now ++ codes "\n") f.new }
{
    let encoded = Base64Display::new(octets, &STANDARD);
    write!(f, "{encoded}\n")
}
