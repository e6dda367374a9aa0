//! Contexts: what messages are judged by, and the nodes that are kept between them.

ghost use Rattle.std.specs.Prelude.{◌≡◌, [], Some, IfOk};
ghost use Rattle.dsec_nodes.specs.SoundOutcomes.{IsJustified};
ghost use Rattle.dsec_node.specs.Caches.{held_in, lasting_in};
ghost use Rattle.dsec_node.specs.Configs.{default_settings};
ghost use Rattle.dsec_context.specs.Promised.{HandsOnMessage};
ghost use Rattle.dsec_context.specs.Setting.{world_at};

use crate::validating::validate_in;
use crate::verdict::Verdict;
use dsec_anchors::TrustAnchors;
use dsec_crypto::Verifier;
use dsec_found::Error;
use dsec_group::NoMemo;
use dsec_message::Message;
use dsec_node::{Config, OwnedCaches};
use dsec_outside::Upstream;
use std::alloc::Global;
use std::marker::Model;

/// Trust anchors and settings, by which messages are judged, and the nodes that are kept of what was found out.
#[derive(Drop)]
pub struct ValidationContext<V: Verifier> {
    anchors: TrustAnchors,
    config: Config,
    caches: OwnedCaches<V>,
}

impl<V: Verifier> Model for ValidationContext<V> {
    ghost use Rattle.dsec_context.specs.Setting.{Setting};

    ghost Value = { Setting };

    ghost view = { λ it. record { anchors = it.anchors; config = it.config; nodes = it.caches.nodes; wants = it.caches.wants } };
}

impl<V: Verifier> ValidationContext<V> {
    /// A context with these anchors and the default settings, which keeps no node yet.
    pub fn new(alloc: Global, anchors: TrustAnchors) -> Self
        ensures { result ≡ record { anchors = anchors; config = default_settings; nodes = []; wants = 0 } }
    {
        Self::with_config(alloc, anchors, Config::new())
    }

    /// A context with these anchors and settings, which keeps no node yet.
    pub fn with_config(alloc: Global, anchors: TrustAnchors, config: Config) -> Self
        ensures { result ≡ record { anchors = anchors; config = config; nodes = []; wants = 0 } }
    {
        ValidationContext {
            anchors,
            config,
            caches: OwnedCaches::new(alloc),
        }
    }

    /// Forgets all nodes.
    pub fn forget(&mut self)
        ensures { self.new ≡ record { anchors = self.old.anchors; config = self.old.config; nodes = []; wants = 0 } }
    {
        self.caches.clear();
    }

    /// How many gets and puts of nodes have found no memory since the context was made, or `forget` was called; it stays at the greatest number. Such a get
    /// gives no node, and a node so put isn't kept; each other is used and kept, and none is forgotten but by `forget`.
    pub fn wants(&self) -> u64
        ensures { result ≡ self.now.wants }
    {
        self.caches.wants()
    }

    /// The verdict on a message at a moment, in seconds since 1970 (RFC 4033 5, RFC 4035 5). The upstream is asked for what no node
    /// of the context's says. Where all groups are judged and none is bogus, the message is rewritten if there were duplicates, or if links show a group
    /// with TTLs greater than what its signature may be kept for (RFC 2181 5, RFC 4035 5.3.3). Else, and after any error but `FormError`, it is as
    /// it came.
    pub fn validate_msg<U: Upstream>(
        &mut self,
        alloc: Global,
        message: &mut Message,
        upstream: &mut U,
        now: u64,
    ) -> Result<Verdict<V>, Error>
        ensures handed_on { HandsOnMessage (world_at V.accepts self.old.anchors self.old.config now) self.old.config.max_cname_dname message.old (U.table upstream.old)
            (record { held = Some (held_in self.old.nodes); lasting = lasting_in self.old.nodes self.old.wants; asked = U.asked upstream.old; faults = U.faults upstream.old; heard = U.heard upstream.old })
            (record { held = Some (held_in self.new.nodes); lasting = lasting_in self.new.nodes self.new.wants; asked = U.asked upstream.new; faults = U.faults upstream.new; heard = U.heard upstream.new }) result message.new }
        ensures sound { IfOk result (λ v. IsJustified (world_at V.accepts self.old.anchors self.old.config now) self.old.config.max_cname_dname message.old v.outcome v.outcome.state) }
        ensures same_table { U.table upstream.new ≡ U.table upstream.old }
        ensures same_anchors { self.new.anchors ≡ self.old.anchors }
        ensures same_config { self.new.config ≡ self.old.config }
    {
        validate_in(
            alloc,
            &self.anchors,
            &self.config,
            &mut self.caches,
            &mut NoMemo,
            message,
            upstream,
            now,
        )
    }
}
