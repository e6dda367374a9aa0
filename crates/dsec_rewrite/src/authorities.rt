//! The groups of the authority section, written record for record (RFC 1035 4.1, RFC 2181 5).

ghost use Rattle.std.specs.Prelude.{◌≡◌, ◌<◌, ◌+◌, OnOk, IsErrOf, length, map};
ghost use Rattle.dsec_spec.specs.WrittenMessages.{message_octets};
ghost use Rattle.dsec_rewrite.specs.Cutting.{cut as cut_of, cut_group, members, section_of};
ghost use Rattle.dsec_rewrite.specs.Views.{bounded_view};
ghost use Rattle.dsec_rewrite.specs.Writing.{octets_of, with_authorities};

use crate::bounded::BoundedGroup;
use crate::cut::cut;
use dsec_builder::{AuthorityBuilder, PushError};
use dsec_wire::Record;

/// Adds what groups leave in the authority section, one after the other; one record is copied at a time.
pub(crate) fn push_authorities(
    builder: &mut AuthorityBuilder,
    groups: &[BoundedGroup<'_>],
) -> Result<(), PushError>
    ensures ok { OnOk result (builder.new ≡ with_authorities builder.old (section_of (map bounded_view groups.now))) }
    ensures full { IsErrOf result PushError.PushError → 65535 < length (message_octets builder.old) + length (octets_of (section_of (map bounded_view groups.now))) }
{
    for one in groups {
        push_group(builder, one)?;
    }
    Ok(())
}

/// Adds a group's records, its signatures and its extra records, their TTLs cut.
fn push_group(builder: &mut AuthorityBuilder, one: &BoundedGroup<'_>) -> Result<(), PushError>
    ensures ok { OnOk result (builder.new ≡ with_authorities builder.old (members (cut_group (bounded_view one.now)))) }
    ensures full { IsErrOf result PushError.PushError → 65535 < length (message_octets builder.old) + length (octets_of (members (cut_group (bounded_view one.now)))) }
{
    push_cut(builder, one.group.rr_set(), one)?;
    push_cut(builder, one.group.sig_set(), one)?;
    push_cut(builder, one.group.extra_set(), one)
}

/// Adds records, their TTLs cut as those of a group are.
fn push_cut(
    builder: &mut AuthorityBuilder,
    records: &[Record],
    group: &BoundedGroup<'_>,
) -> Result<(), PushError>
    ensures ok { OnOk result (builder.new ≡ with_authorities builder.old (map (cut_of group.now.adjust_ttl) records.now)) }
    ensures full { IsErrOf result PushError.PushError → 65535 < length (message_octets builder.old) + length (octets_of (map (cut_of group.now.adjust_ttl) records.now)) }
{
    for one in records {
        let copy = cut(one, group)?;
        builder.push(&copy)?;
    }
    Ok(())
}
