//! The line of a link.

ghost use Rattle.std.specs.Prelude.{◌≡◌, ◌++◌, ◌∷◌, OnErr, OnOk};
ghost use Rattle.std.specs.List.{flat_map};
ghost use Rattle.std.specs.Option.{option_map};
ghost use Rattle.hex.specs.Hex.{encode_lower};
ghost use Rattle.dsec_link.specs.Links.{kind_view};
ghost use Rattle.dsec_link.specs.Sets.{octets_of};
ghost use Rattle.dsec_link.specs.LinkTexts.{datas_text, kind_text, link_data, link_head, link_line, via_text};

use crate::link::{Link, LinkKind};
use dsec_name::{NoMemory, Octets};
use dsec_wire::Data;
use dsec_word::{push_hex, push_name, push_number};

/// Adds the line of a link.
pub fn push_link(out: &mut Vec<u8>, index: u64, link: &Link) -> Result<(), NoMemory>
    ensures ok { OnOk result (out.new.items ≡ out.old.items ++ link_line index link.now) }
    ensures err { OnErr result (out.new.items ≡ out.old.items) }
{
    // A line that is begun and not ended isn't left in `out`.
    let mut line = Vec::new(*out.allocator());
    push_head(&mut line, index, link)?;
    push_data(&mut line, link)?;
    line.push(b'\n')?;
    out.extend_from_slice(&line)?;
    Ok(())
}

/// Adds what the link is, and its set's owner, class and type.
#[tactic(auto, unfolding(crate::specs::LinkTexts::link_head))]
fn push_head(out: &mut Vec<u8>, index: u64, link: &Link) -> Result<(), NoMemory>
    ensures { OnOk result (out.new.items ≡ out.old.items ++ link_head index link.now) }
{
    out.extend_from_slice(b"link ")?;
    push_number(out, index)?;
    out.extend_from_slice(b" ")?;
    out.extend_from_slice(kind_word(link.kind()).as_bytes())?;
    out.extend_from_slice(b" ")?;
    push_name(out, link.records().owner())?;
    out.extend_from_slice(b" ")?;
    push_number(out, u64::from(link.records().class().to_int()))?;
    out.extend_from_slice(b" ")?;
    push_number(out, u64::from(link.records().rtype().to_int()))
}

/// Adds what speaks of the link's key, the key, the signature, and the set's data.
#[tactic(auto, unfolding(crate::specs::LinkTexts::link_data))]
fn push_data(out: &mut Vec<u8>, link: &Link) -> Result<(), NoMemory>
    ensures { OnOk result (out.new.items ≡ out.old.items ++ link_data link.now) }
{
    out.extend_from_slice(b" ")?;
    push_via(out, link.via())?;
    out.extend_from_slice(b" ")?;
    push_hex(out, link.signing_key().as_slice())?;
    out.extend_from_slice(b" ")?;
    push_hex(out, link.rrsig_data().octets().as_slice())?;
    out.extend_from_slice(b" ")?;
    push_datas(out, link.records().datas())
}

/// The word of a kind of links.
fn kind_word(kind: LinkKind) -> &'static str
    ensures { result.now ≡ kind_text (kind_view kind) }
{
    match kind {
        LinkKind::AnchorKey => "anchor-key",
        LinkKind::AnchorDs => "anchor-ds",
        LinkKind::Ds => "ds",
        LinkKind::Key => "key",
        LinkKind::Set => "set",
    }
}

/// Adds the data of an anchor or a DS record, or `-`.
fn push_via(out: &mut Vec<u8>, via: Option<&Octets>) -> Result<(), NoMemory>
    ensures { OnOk result (out.new.items ≡ out.old.items ++ via_text (option_map (λ octets. octets.now) via.entry)) }
{
    match via {
        Some(octets) => push_hex(out, octets.as_slice()),
        None => {
            out.push(b'-')?;
            Ok(())
        }
    }
}

/// Adds data, with commas between.
fn push_datas(out: &mut Vec<u8>, datas: &[Data]) -> Result<(), NoMemory>
    ensures { OnOk result (out.new.items ≡ out.old.items ++ datas_text (octets_of datas.now)) }
{
    match datas {
        [] => Ok(()),
        [first, others @ ..] => {
            push_hex(out, first.octets().as_slice())?;
            push_others(out, others)
        }
    }
}

/// Adds data, each after a comma.
fn push_others(out: &mut Vec<u8>, datas: &[Data]) -> Result<(), NoMemory>
    ensures { OnOk result (out.new.items ≡ out.old.items ++ flat_map (λ other. 44 ∷ encode_lower other) (octets_of datas.now)) }
{
    for one in datas {
        out.push(b',')?;
        push_hex(out, one.octets().as_slice())?;
    }
    Ok(())
}
