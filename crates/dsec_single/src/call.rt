//! Groups validated from trust anchors, over caches, a memo and an upstream (RFC 4033 5, RFC 4035 4.3, 5).

ghost use Rattle.std.specs.Prelude.{◌≡◌, ◌<◌, ◌≤◌, ◌≢◌, ◌+◌, [], IfOk, IfSome, true};
ghost use Rattle.std.specs.Arc.{arc_value};
ghost use Rattle.dsec_spec.specs.Names.{place, IsAtOrBelow};
ghost use Rattle.dsec_course.specs.Course.{by_walk, way_of};
ghost use Rattle.dsec_nodes.specs.Judging.{by_node, target_of as target_in};
ghost use Rattle.dsec_nodes.specs.World.{on_circle};
ghost use Rattle.dsec_node.specs.Views.{bounds_of, world_of};
ghost use Rattle.dsec_walk.specs.Views.{world_in};
ghost use Rattle.dsec_lookup.specs.Outside.{replies_of, HoldsTable};
ghost use Rattle.dsec_found.specs.Letters.{told_zone_for};
ghost use Rattle.dsec_by_node.specs.Answers.{CanBeTold, answer_by};
ghost use Rattle.dsec_single.specs.Calls.{answered, of_no_island, of_signatures_alone, zone_for, AgreesOn, IsSingleCall};
ghost use Rattle.dsec_single.specs.Checked.{HeardWithin, IsSingleCallWithin};
ghost use Rattle.dsec_single.specs.Sound.{IsSoundOn};
ghost use Rattle.dsec_by_node.specs.WithNode.{tells_of, IsShownBy};

use crate::answer::WithContext;
use crate::serving::node_for;
use dsec_anchors::TrustAnchors;
use dsec_by_node::{Told, validate_with_node_in_steps};
use dsec_cause::Cause;
use dsec_crypto::Verifier;
use dsec_found::{Target, target_of};
use dsec_group::{Group, Memo, Steps};
use dsec_name::{Name, NoMemory};
use dsec_node::{Caches, Config, Node};
use dsec_outside::Upstream;
use dsec_walk::Setting;
use std::alloc::Global;
use std::marker::Brand;
use std::sync::Arc;
use std::sync::ledger::{Blank, Ledger};

/// What is told of a group at a moment, in seconds since 1970, from these anchors: by the node of the zone that is to have signed it, to which a walk
/// leads from the group's island. Nodes are got from the caches and put into them, and the upstream is asked for what they don't have. Where caches
/// find no memory they are passed over; a question that fails has no reply.
pub fn validate_with_vc<V: Verifier, C: Caches<V>, M: Memo<V>, U: Upstream>(
    alloc: Global,
    group: &Group,
    anchors: &TrustAnchors,
    config: &Config,
    caches: &mut C,
    memo: &mut M,
    upstream: &mut U,
    now: u64,
) -> Result<WithContext<V>, NoMemory>
    ensures call { IsSingleCall (world_of V.accepts anchors.now (bounds_of config.now) now) group.now (U.table upstream.old)
        (record { held = C.held caches.old; lasting = C.lasting caches.old; asked = U.asked upstream.old; faults = U.faults upstream.old; heard = U.heard upstream.old })
        (record { held = C.held caches.new; lasting = C.lasting caches.new; asked = U.asked upstream.new; faults = U.faults upstream.new; heard = U.heard upstream.new }) (answered result (λ it. it.told)) }
    ensures target { IfOk result (λ it. place it.target ≡ zone_for (world_of V.accepts anchors.now (bounds_of config.now) now) group.now) }
    ensures letters { IfOk result (λ it. it.target ≡ told_zone_for anchors.now group.now) }
    ensures sound { IfOk result (λ it. IsSoundOn (world_of V.accepts anchors.now (bounds_of config.now) now) group.now (place it.target) it.told) }
    ensures justified { IfOk result (λ it. CanBeTold V.accepts group.now (place it.target) it.told) }
    ensures told { IfSome (U.table upstream.old) (λ t. HoldsTable (world_of V.accepts anchors.now (bounds_of config.now) now) (replies_of t) (C.held caches.old)
        → AgreesOn (world_of V.accepts anchors.now (bounds_of config.now) now) group.now
        (record { held = C.held caches.new; lasting = C.lasting caches.new; asked = U.asked upstream.new; faults = U.faults upstream.new; heard = U.heard upstream.new }) (answered result (λ it. it.told)) (replies_of t)) }
    ensures same_table { U.table upstream.new ≡ U.table upstream.old }
{
    counted::<V, C, M, U, Brand>(
        alloc,
        group,
        anchors,
        config,
        caches,
        memo,
        upstream,
        now,
        Blank::new(1),
    )
}

/// The same, on a ledger that the blank opens.
fn counted<V: Verifier, C: Caches<V>, M: Memo<V>, U: Upstream, L: Ledger>(
    alloc: Global,
    group: &Group,
    anchors: &TrustAnchors,
    config: &Config,
    caches: &mut C,
    memo: &mut M,
    upstream: &mut U,
    now: u64,
    blank: Blank,
) -> Result<WithContext<V>, NoMemory>
    requires name { blank.name ≡ L.name }
    requires parts { blank.parts ≡ L.parts }
    requires shared { 0 < L.parts }
    ensures call { IsSingleCall (world_of V.accepts anchors.now (bounds_of config.now) now) group.now (U.table upstream.old)
        (record { held = C.held caches.old; lasting = C.lasting caches.old; asked = U.asked upstream.old; faults = U.faults upstream.old; heard = U.heard upstream.old })
        (record { held = C.held caches.new; lasting = C.lasting caches.new; asked = U.asked upstream.new; faults = U.faults upstream.new; heard = U.heard upstream.new }) (answered result (λ it. it.told)) }
    ensures target { IfOk result (λ it. place it.target ≡ zone_for (world_of V.accepts anchors.now (bounds_of config.now) now) group.now) }
    ensures letters { IfOk result (λ it. it.target ≡ told_zone_for anchors.now group.now) }
    ensures sound { IfOk result (λ it. IsSoundOn (world_of V.accepts anchors.now (bounds_of config.now) now) group.now (place it.target) it.told) }
    ensures justified { IfOk result (λ it. CanBeTold V.accepts group.now (place it.target) it.told) }
    ensures told { IfSome (U.table upstream.old) (λ t. HoldsTable (world_of V.accepts anchors.now (bounds_of config.now) now) (replies_of t) (C.held caches.old)
        → AgreesOn (world_of V.accepts anchors.now (bounds_of config.now) now) group.now
        (record { held = C.held caches.new; lasting = C.lasting caches.new; asked = U.asked upstream.new; faults = U.faults upstream.new; heard = U.heard upstream.new }) (answered result (λ it. it.told)) (replies_of t)) }
    ensures same_table { U.table upstream.new ≡ U.table upstream.old }
{
    let mut steps = Steps::<L>::begin(blank);
    validate_with_vc_in_steps(
        alloc, group, anchors, config, caches, memo, upstream, now, &mut steps,
    )
}

/// `validate_with_vc` on the caller's ledger: each check of a signature is one of its steps. Of each set `max_bad_signatures + 1` signatures are
/// checked at most. A question takes as many sets as its reply can have checked: to the one for a DS set a DS set, a CNAME set and each set of the
/// authority section, which has no more than 65,535 records (RFC 1035 4.1.1); to the one for a DNSKEY set that set. The group itself is one set
/// more. So whatever caches and upstream do, and however the call ends, the replies bound the number of checks.
pub fn validate_with_vc_in_steps<V: Verifier, C: Caches<V>, M: Memo<V>, U: Upstream, L: Ledger>(
    alloc: Global,
    group: &Group,
    anchors: &TrustAnchors,
    config: &Config,
    caches: &mut C,
    memo: &mut M,
    upstream: &mut U,
    now: u64,
    steps: &mut Steps<L>,
) -> Result<WithContext<V>, NoMemory>
    ensures call { IsSingleCall (world_of V.accepts anchors.now (bounds_of config.now) now) group.now (U.table upstream.old)
        (record { held = C.held caches.old; lasting = C.lasting caches.old; asked = U.asked upstream.old; faults = U.faults upstream.old; heard = U.heard upstream.old })
        (record { held = C.held caches.new; lasting = C.lasting caches.new; asked = U.asked upstream.new; faults = U.faults upstream.new; heard = U.heard upstream.new }) (answered result (λ it. it.told)) }
    ensures target { IfOk result (λ it. place it.target ≡ zone_for (world_of V.accepts anchors.now (bounds_of config.now) now) group.now) }
    ensures letters { IfOk result (λ it. it.target ≡ told_zone_for anchors.now group.now) }
    ensures sound { IfOk result (λ it. IsSoundOn (world_of V.accepts anchors.now (bounds_of config.now) now) group.now (place it.target) it.told) }
    ensures justified { IfOk result (λ it. CanBeTold V.accepts group.now (place it.target) it.told) }
    ensures told { IfSome (U.table upstream.old) (λ t. HoldsTable (world_of V.accepts anchors.now (bounds_of config.now) now) (replies_of t) (C.held caches.old)
        → AgreesOn (world_of V.accepts anchors.now (bounds_of config.now) now) group.now
        (record { held = C.held caches.new; lasting = C.lasting caches.new; asked = U.asked upstream.new; faults = U.faults upstream.new; heard = U.heard upstream.new }) (answered result (λ it. it.told)) (replies_of t)) }
    ensures checks { IsSingleCallWithin (world_of V.accepts anchors.now (bounds_of config.now) now) group.now (U.table upstream.old)
        (record { held = C.held caches.old; lasting = C.lasting caches.old; asked = U.asked upstream.old; faults = U.faults upstream.old; heard = U.heard upstream.old })
        (record { held = C.held caches.new; lasting = C.lasting caches.new; asked = U.asked upstream.new; faults = U.faults upstream.new; heard = U.heard upstream.new }) (answered result (λ it. it.told)) steps.old steps.new }
    ensures heard { HeardWithin (U.heard upstream.old) (U.heard upstream.new) (config.now.max_bad_signatures + 1) steps.old steps.new }
    ensures same_table { U.table upstream.new ≡ U.table upstream.old }
{
    let setting = Setting {
        anchors: anchors.as_slice(),
        config,
        moment: now,
    };
    told_of(alloc, group, &setting, caches, memo, upstream, steps)
}

/// What is told of a group, and what it takes.
fn told_of<V: Verifier, C: Caches<V>, M: Memo<V>, U: Upstream, L: Ledger>(
    alloc: Global,
    group: &Group,
    setting: &Setting<'_>,
    caches: &mut C,
    memo: &mut M,
    upstream: &mut U,
    steps: &mut Steps<L>,
) -> Result<WithContext<V>, NoMemory>
    ensures checks { IsSingleCallWithin (world_in V.accepts setting.now) group.now (U.table upstream.old)
        (record { held = C.held caches.old; lasting = C.lasting caches.old; asked = U.asked upstream.old; faults = U.faults upstream.old; heard = U.heard upstream.old })
        (record { held = C.held caches.new; lasting = C.lasting caches.new; asked = U.asked upstream.new; faults = U.faults upstream.new; heard = U.heard upstream.new }) (answered result (λ it. it.told)) steps.old steps.new }
    ensures target { IfOk result (λ it. place it.target ≡ zone_for (world_in V.accepts setting.now) group.now) }
    ensures letters { IfOk result (λ it. it.target ≡ told_zone_for setting.now.anchors.now group.now) }
    ensures sound { IfOk result (λ it. IsSoundOn (world_in V.accepts setting.now) group.now (place it.target) it.told) }
    ensures justified { IfOk result (λ it. CanBeTold V.accepts group.now (place it.target) it.told) }
    ensures same_table { U.table upstream.new ≡ U.table upstream.old }
{
    if group.rr_set().is_empty() {
        return Ok(without_set(alloc));
    }
    let Ok(Target { top, zone }) = target_of(alloc, setting.anchors, group) else {
        return Err(NoMemory);
    };
    match top {
        Some(top) => walked(
            alloc, group, setting, top, zone, caches, memo, upstream, steps,
        ),
        None => Ok(without_island(zone)),
    }
}

/// What is told of a group of signatures alone.
fn without_set<V: Verifier>(alloc: Global) -> WithContext<V>
    ensures told { result.told ≡ of_signatures_alone }
    ensures target { place result.target ≡ [] }
    ensures letters { result.target ≡ [] }
{
    WithContext {
        told: Told::insecure(Cause::RrsigWithoutRrset),
        target: Name::root(alloc),
    }
}

/// What is told of a group without an island, which this zone was to have signed.
fn without_island<V: Verifier>(zone: Name) -> WithContext<V>
    ensures told { result.told ≡ of_no_island }
    ensures target { result.target ≡ zone }
{
    WithContext {
        told: Told::indeterminate(Cause::NoTrustAnchor),
        target: zone,
    }
}

/// What is told of a group with an island by the node of the zone that is to have signed it.
fn walked<V: Verifier, C: Caches<V>, M: Memo<V>, U: Upstream, L: Ledger>(
    alloc: Global,
    group: &Group,
    setting: &Setting<'_>,
    top: Name,
    zone: Name,
    caches: &mut C,
    memo: &mut M,
    upstream: &mut U,
    steps: &mut Steps<L>,
) -> Result<WithContext<V>, NoMemory>
    requires has_records { group.now.records ≢ [] }
    requires below { IsAtOrBelow (place zone) (place top) }
    requires way { way_of (world_in V.accepts setting.now) group.now ≡ by_walk (place top) }
    requires target { place zone ≡ target_in group.now (Some (place top)) }
    ensures checks { IsSingleCallWithin (world_in V.accepts setting.now) group.now (U.table upstream.old)
        (record { held = C.held caches.old; lasting = C.lasting caches.old; asked = U.asked upstream.old; faults = U.faults upstream.old; heard = U.heard upstream.old })
        (record { held = C.held caches.new; lasting = C.lasting caches.new; asked = U.asked upstream.new; faults = U.faults upstream.new; heard = U.heard upstream.new }) (answered result (λ it. it.told)) steps.old steps.new }
    ensures target { IfOk result (λ it. place it.target ≡ zone_for (world_in V.accepts setting.now) group.now) }
    ensures letters { IfOk result (λ it. it.target ≡ zone) }
    ensures sound { IfOk result (λ it. IsSoundOn (world_in V.accepts setting.now) group.now (place it.target) it.told) }
    ensures justified { IfOk result (λ it. CanBeTold V.accepts group.now (place it.target) it.told) }
    ensures same_table { U.table upstream.new ≡ U.table upstream.old }
{
    let Ok(target) = copy_of(&zone) else {
        return Err(NoMemory);
    };
    match node_for(alloc, setting, top, zone, caches, memo, upstream, steps) {
        Ok(node) => by_end(alloc, group, setting, &node, target, memo, steps),
        Err(NoMemory) => Err(NoMemory),
    }
}

/// What is told of a group by the node with which its walk ends.
fn by_end<V: Verifier, L: Ledger>(
    alloc: Global,
    group: &Group,
    setting: &Setting<'_>,
    node: &Arc<Node<V>>,
    target: Name,
    memo: &mut impl Memo<V>,
    steps: &mut Steps<L>,
) -> Result<WithContext<V>, NoMemory>
    requires has_records { group.now.records ≢ [] }
    requires tells { tells_of (world_in V.accepts setting.now) group.now (arc_value node.now) ≡ true }
    ensures answer { IfOk result (λ it. it.told.answer ≡ answer_by group.now (on_circle setting.now.moment) (by_node (world_in V.accepts setting.now) group.now (arc_value node.now)).finding) }
    ensures target { IfOk result (λ it. it.target ≡ target) }
    ensures sound { IfOk result (λ it. CanBeTold V.accepts group.now (arc_value node.now).signer it.told) }
    ensures shown { IfOk result (λ it. IsShownBy (world_in V.accepts setting.now) group.now (arc_value node.now) it.told) }
    ensures bound { steps.new ≤ steps.old + (setting.now.config.now.max_bad_signatures + 1) }
{
    let (config, moment) = (setting.config, setting.moment);
    let found = validate_with_node_in_steps::<V, L>(
        alloc, group, node, config, memo, moment, steps,
    )?;
    Ok(WithContext {
        told: found.told,
        target,
    })
}

/// A copy of a name.
fn copy_of(name: &Name) -> Result<Name, NoMemory>
    ensures { IfOk result (λ copy. copy ≡ name.now) }
{
    Ok(name.clone()?)
}
