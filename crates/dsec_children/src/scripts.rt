//! Scripts, one after the other, and the names that their messages ask for.

ghost use Rattle.std.specs.Prelude.{IfSome};
ghost use Rattle.dsec_spec.specs.Names.{IsAtOrBelow, place};

use crate::way::push_way;
use dsec_anchors::island_owner;
use dsec_message::Message;
use dsec_name::{Name, NoMemory};
use dsec_node::Config;
use dsec_number::Rtype;
use dsec_script::{Item, Script, read_script};
use dsec_walk::Setting;
use dsec_wire::Questions;
use std::alloc::Global;
use std::marker::Brand;
use std::sync::ledger::Blank;

/// Adds what is printed of scripts.
pub(crate) fn push_scripts(alloc: Global, out: &mut Vec<u8>, text: &[u8]) -> Result<(), NoMemory> {
    let mut rest = text;
    for _ in 0..text.len() {
        let (first, behind) = split(rest);
        push_headed(alloc, out, first)?;
        rest = behind;
        if rest.is_empty() {
            break;
        }
    }
    Ok(())
}

/// The first script with the line before it, and what stands behind its last LF.
fn split(text: &[u8]) -> (&[u8], &[u8]) {
    match text.windows(4).position(|four| four.starts_with(b"\n== ")) {
        Some(at) => (&text[..at], &text[at + 1..]),
        None => (text, b""),
    }
}

/// Adds the line before a script, and what is printed of the script.
fn push_headed(alloc: Global, out: &mut Vec<u8>, text: &[u8]) -> Result<(), NoMemory> {
    let (heading, script) = match text.iter().position(|octet| *octet == b'\n') {
        Some(at) => (&text[..at], &text[at + 1..]),
        None => (text, b"".as_slice()),
    };
    out.extend_from_slice(heading)?;
    out.push(b'\n')?;
    push_script(alloc, out, script)
}

/// Adds the nodes of a script's names.
fn push_script(alloc: Global, out: &mut Vec<u8>, text: &[u8]) -> Result<(), NoMemory> {
    match read_script(alloc, text) {
        Ok(script) => push_items(alloc, out, &script),
        Err(_) => Ok(out.extend_from_slice(b"refused\n")?),
    }
}

/// Adds the nodes of a script's names, message by message.
fn push_items(alloc: Global, out: &mut Vec<u8>, script: &Script) -> Result<(), NoMemory> {
    for item in script.items.as_slice() {
        push_item(alloc, out, script, item)?;
    }
    Ok(())
}

/// Adds the nodes on the way to the name that a message asks for.
fn push_item(
    alloc: Global,
    out: &mut Vec<u8>,
    script: &Script,
    item: &Item,
) -> Result<(), NoMemory> {
    let Some(name) = asked_name(alloc, item) else {
        return Ok(out.extend_from_slice(b"no question\n")?);
    };
    match island_of(script, &name) {
        Some(top) => {
            let top = top.clone()?;
            push_from(alloc, out, script, item.seconds, top, name)
        },
        None => Ok(out.extend_from_slice(b"no island\n")?),
    }
}

/// The island of a name, if an anchor stands at it or above it.
fn island_of<'a>(script: &'a Script, name: &Name) -> Option<&'a Name>
    ensures { IfSome result (λ top. IsAtOrBelow (place name.now) (place top.now)) }
{
    match island_owner(script.anchors.as_slice(), name, Rtype::A) {
        Some(top) if name.ends_with(top) => Some(top),
        _ => None,
    }
}

/// Adds the nodes on the way from an island down to a name, at a moment in seconds since 1970.
fn push_from(
    alloc: Global,
    out: &mut Vec<u8>,
    script: &Script,
    moment: u64,
    top: Name,
    name: Name,
) -> Result<(), NoMemory>
    requires below { IsAtOrBelow (place name) (place top) }
{
    let config = Config::new();
    let setting = Setting {
        anchors: script.anchors.as_slice(),
        config: &config,
        moment,
    };
    push_way::<Brand>(
        alloc,
        out,
        &script.replies,
        &setting,
        top,
        name,
        Blank::new(1),
    )
}

/// The name that a message asks for; none where it has no question.
fn asked_name(alloc: Global, item: &Item) -> Option<Name> {
    let questions = questions_of(alloc, item.octets.as_slice())?;
    match questions.as_slice() {
        [first, ..] => first.qname().clone().ok(),
        [] => None,
    }
}

/// What a message asks; nothing where it can't be read.
fn questions_of(alloc: Global, octets: &[u8]) -> Option<Questions> {
    match message_of(alloc, octets) {
        Some(message) => message.question(alloc).ok(),
        None => None,
    }
}

/// A message of these octets.
fn message_of(alloc: Global, octets: &[u8]) -> Option<Message> {
    match octets.to_vec(alloc) {
        Ok(copy) => Message::from_octets(copy).ok(),
        Err(_) => None,
    }
}
