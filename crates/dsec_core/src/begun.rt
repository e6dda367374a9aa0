//! How a group of a message is judged: at once, or by a walk (RFC 4033 2, RFC 4035 4.3).

ghost use Rattle.std.specs.Prelude.{IfOk};
ghost use Rattle.dsec_course.specs.Course.{way_of as way_in};
ghost use Rattle.dsec_walk.specs.Views.{world_in};
ghost use Rattle.dsec_core.specs.Progress.{IsAtOnce, WayIs};

use dsec_crypto::Verifier;
use dsec_found::{Begun, JudgedGroup, Target, begin, target_of};
use dsec_group::Group;
use dsec_name::{Name, NoMemory};
use dsec_walk::Setting;
use std::alloc::Global;

/// How a group is judged.
#[derive(Drop)]
pub(crate) enum Way<V: Verifier> {
    /// At once: it is of signatures alone, or no anchor stands at or above where it is looked for.
    AtOnce(JudgedGroup<V>),
    /// The group by a walk from its island, the first name, to the zone that is to have signed it, the last one.
    ByWalk(Group, Name, Name),
}

/// How a group is judged.
pub(crate) fn way_of<V: Verifier>(
    alloc: Global,
    setting: &Setting<'_>,
    group: Group,
) -> Result<Way<V>, NoMemory>
    ensures { IfOk result (λ way. WayIs group (way_in (world_in V.accepts setting.now) group) way) }
{
    if group.rr_set().is_empty() {
        return at_once(alloc, setting, group);
    }
    let Target { top, zone } = target_of(alloc, setting.anchors, &group)?;
    match top {
        Some(top) => Ok(Way::ByWalk(group, top, zone)),
        None => at_once(alloc, setting, group),
    }
}

/// A group that is judged at once.
fn at_once<V: Verifier>(
    alloc: Global,
    setting: &Setting<'_>,
    group: Group,
) -> Result<Way<V>, NoMemory>
    requires { IsAtOnce setting.now.anchors.now group }
    ensures { IfOk result (λ way. WayIs group (way_in (world_in V.accepts setting.now) group) way) }
{
    match begin::<V>(alloc, setting.anchors, group)? {
        Begun::Judged(judged) => Ok(Way::AtOnce(judged)),
        Begun::Walk(_, _, _) => unreachable!(),
    }
}
