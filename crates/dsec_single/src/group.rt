//! Groups with what validation from trust anchors says of them (RFC 4033 5, RFC 4035 4.3, 5).

ghost use Rattle.std.specs.Prelude.{◌≡◌, IfOk, IfSome};
ghost use Rattle.dsec_spec.specs.Names.{place};
ghost use Rattle.dsec_node.specs.Views.{bounds_of, world_of};
ghost use Rattle.dsec_lookup.specs.Outside.{replies_of, HoldsTable};
ghost use Rattle.dsec_found.specs.Letters.{told_zone_for};
ghost use Rattle.dsec_by_node.specs.Answers.{told_in};
ghost use Rattle.dsec_single.specs.Calls.{answered, zone_for, AgreesOn, IsSingleCall};
ghost use Rattle.dsec_single.specs.Sound.{IsSoundOn};

use crate::call::validate_with_vc;
use dsec_anchors::TrustAnchors;
use dsec_crypto::Verifier;
use dsec_group::{Group, Memo};
use dsec_name::NoMemory;
use dsec_node::{Caches, Config};
use dsec_outside::Upstream;
use dsec_validated::ValidatedGroup;
use std::alloc::Global;

/// A copy of a group with what `validate_with_vc` tells of it; its signer is the zone that has signed it, or was to.
pub fn validated<V: Verifier, C: Caches<V>, M: Memo<V>, U: Upstream>(
    alloc: Global,
    group: &Group,
    anchors: &TrustAnchors,
    config: &Config,
    caches: &mut C,
    memo: &mut M,
    upstream: &mut U,
    now: u64,
) -> Result<ValidatedGroup<V>, NoMemory>
    ensures group { IfOk result (λ it. it.group ≡ group.now) }
    ensures call { IsSingleCall (world_of V.accepts anchors.now (bounds_of config.now) now) group.now (U.table upstream.old)
        (record { held = C.held caches.old; lasting = C.lasting caches.old; asked = U.asked upstream.old; faults = U.faults upstream.old; heard = U.heard upstream.old })
        (record { held = C.held caches.new; lasting = C.lasting caches.new; asked = U.asked upstream.new; faults = U.faults upstream.new; heard = U.heard upstream.new }) (answered result (λ it. told_in it)) }
    ensures signer { IfOk result (λ it. place it.signer ≡ zone_for (world_of V.accepts anchors.now (bounds_of config.now) now) group.now) }
    ensures letters { IfOk result (λ it. it.signer ≡ told_zone_for anchors.now group.now) }
    ensures sound { IfOk result (λ it. IsSoundOn (world_of V.accepts anchors.now (bounds_of config.now) now) group.now (place it.signer) (told_in it)) }
    ensures told { IfSome (U.table upstream.old) (λ t. HoldsTable (world_of V.accepts anchors.now (bounds_of config.now) now) (replies_of t) (C.held caches.old)
        → AgreesOn (world_of V.accepts anchors.now (bounds_of config.now) now) group.now
        (record { held = C.held caches.new; lasting = C.lasting caches.new; asked = U.asked upstream.new; faults = U.faults upstream.new; heard = U.heard upstream.new }) (answered result (λ it. told_in it)) (replies_of t)) }
    ensures same_table { U.table upstream.new ≡ U.table upstream.old }
{
    let Ok(own) = group.clone() else {
        return Err(NoMemory);
    };
    match validate_with_vc(alloc, group, anchors, config, caches, memo, upstream, now) {
        Ok(found) => Ok(found.told.into_validated(own, found.target)),
        Err(NoMemory) => Err(NoMemory),
    }
}
