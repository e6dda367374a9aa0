//! What is written for the groups that denials use.

ghost use Rattle.std.specs.Prelude.{◌≡◌, ◌++◌, OnOk};
ghost use Rattle.std.specs.List.{flat_map};
ghost use Rattle.dsec_link.specs.LinkTexts.{link_line};
ghost use Rattle.dsec_answer.specs.Texts.{first_lines, is_among as among, used_line, used_lines};

use crate::texts::push_links;
use dsec_context::UsedGroup;
use dsec_crypto::Verifier;
use dsec_found::JudgedGroup;
use dsec_link::{Link, push_link};
use dsec_name::NoMemory;
use std::alloc::Global;

/// How many octets a line's first word has.
const WORD: usize = 4;

/// Adds the lines of a group that a denial uses, where it isn't among those that were used before.
pub(crate) fn push_first<V: Verifier>(
    alloc: Global,
    out: &mut Vec<u8>,
    index: u64,
    before: &[UsedGroup<V>],
    one: &UsedGroup<V>,
) -> Result<(), NoMemory>
    ensures { OnOk result (out.new.items ≡ out.old.items ++ first_lines index before.now one.now) }
{
    if is_among(one.index(), before) {
        return Ok(());
    }
    push_used_group(alloc, out, index, one.judged())
}

/// Whether the group at an index is among those that are used.
fn is_among<V: Verifier>(index: usize, used: &[UsedGroup<V>]) -> bool
    ensures { result ≡ among index used.now }
{
    used.iter().any(|one| one.index() == index)
}

/// Adds the lines of a group that a denial uses, if it is shown: those of its zone's links, and of its own.
fn push_used_group<V: Verifier>(
    alloc: Global,
    out: &mut Vec<u8>,
    index: u64,
    judged: &JudgedGroup<V>,
) -> Result<(), NoMemory>
    ensures { OnOk result (out.new.items ≡ out.old.items ++ used_lines index judged.now.finding) }
{
    let last = judged.last_link(alloc)?;
    match (judged.links(), last) {
        (Some(links), Some(last)) => push_chain(alloc, out, index, links, &last),
        _ => Ok(()),
    }
}

/// Adds the lines of links, and of that of a group that a denial uses.
fn push_chain(
    alloc: Global,
    out: &mut Vec<u8>,
    index: u64,
    links: &[Link],
    last: &Link,
) -> Result<(), NoMemory>
    ensures { OnOk result (out.new.items ≡ out.old.items ++ (flat_map (λ link. link_line index link) links.now ++ used_line index last.now)) }
{
    push_links(out, index, links)?;
    push_used(alloc, out, index, last)
}

/// Adds the line of a group that a denial uses, which is its link's with another first word.
fn push_used(alloc: Global, out: &mut Vec<u8>, index: u64, link: &Link) -> Result<(), NoMemory>
    ensures { OnOk result (out.new.items ≡ out.old.items ++ used_line index link.now) }
{
    let mut line = Vec::new(alloc);
    push_link(&mut line, index, link)?;
    out.extend_from_slice(b"used")?;
    out.extend_from_slice(&line[WORD..])?;
    Ok(())
}
