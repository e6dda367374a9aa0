//! What the replies to a walk's questions come to (RFC 4035 5.2).

ghost use Rattle.std.specs.Prelude.{◌≡◌, ◌+◌, ◌*◌, ◌≤◌, IfOk};
ghost use Rattle.std.specs.Option.{option_map};
ghost use Rattle.dsec_spec.specs.Names.{IsStrictlyBelow};
ghost use Rattle.dsec_spec.specs.Numbers.{DNSKEY, DS};
ghost use Rattle.dsec_nodes.specs.ByDs.{by_ds_reply as ds_reply_below, by_key_reply};
ghost use Rattle.dsec_nodes.specs.Held.{IsPending};
ghost use Rattle.dsec_nodes.specs.InStep.{WaitsBelow};
ghost use Rattle.dsec_nodes.specs.Machine as machine;
ghost use Rattle.dsec_nodes.specs.Replies.{read_reply};
ghost use Rattle.dsec_nodes.specs.SoundSteps.{PendingSound};
ghost use Rattle.dsec_nodes.specs.Walk.{by_anchor_reply, held_keys};
ghost use Rattle.dsec_child.specs.Belows.{most_checked};
ghost use Rattle.dsec_walk.specs.Checks.{checked_first, checked_reply};
ghost use Rattle.dsec_walk.specs.Progress.{result_by};
ghost use Rattle.dsec_walk.specs.UnderWay.{CanHear, Fits, IsBelowZone, IsZoneNow};
ghost use Rattle.dsec_walk.specs.Views.{world_in};

use super::Walk;
use crate::reached::Next;
use crate::setting::Setting;
use crate::steps::Phase;
use dsec_child::{Below, anchored, by_ds_reply, by_keys};
use dsec_crypto::Verifier;
use dsec_group::{Memo, Steps};
use dsec_name::{NoMemory, Octets};
use dsec_node::{Node, Pending};
use dsec_number::Rtype;
use std::alloc::Global;
use std::sync::ledger::Ledger;

impl<V: Verifier> Walk<V> {
    /// What a reply comes to.
    pub(super) fn next_by<L: Ledger>(
        &self,
        alloc: Global,
        setting: &Setting<'_>,
        reply: &Option<Octets>,
        memo: &mut impl Memo<V>,
        steps: &mut Steps<L>,
    ) -> Result<Next<V>, NoMemory>
        requires { CanHear (world_in V.accepts setting.now) self.now }
        ensures next { IfOk result (λ n. machine.replied (world_in V.accepts setting.now) self.now self.now.phase reply.now ≡ result_by self.now reply.now n) }
        ensures bound { steps.new ≤ steps.old + checked_reply self.now.phase self.now.reached reply.now * (setting.now.config.now.max_bad_signatures + 1) }
    {
        match &self.phase {
            Phase::AsksKeys(pending) => {
                self.keys_by::<L>(alloc, setting, pending, reply, memo, steps)
            }
            _ => self.first_by::<L>(alloc, setting, reply, memo, steps),
        }
    }

    /// What the reply with a key set comes to.
    fn keys_by<L: Ledger>(
        &self,
        alloc: Global,
        setting: &Setting<'_>,
        pending: &Pending,
        reply: &Option<Octets>,
        memo: &mut impl Memo<V>,
        steps: &mut Steps<L>,
    ) -> Result<Next<V>, NoMemory>
        requires below { IsBelowZone (world_in V.accepts setting.now) self.now self.now.reached }
        requires pends { PendingSound (world_in V.accepts setting.now) self.now (machine.asks_keys pending.now) self.now.reached }
        requires waits { WaitsBelow (machine.asks_keys pending.now) self.now.reached }
        ensures next { IfOk result (λ n. machine.key_reply (world_in V.accepts setting.now) self.now self.now.reached pending.now reply.now ≡ result_by self.now reply.now n) }
        ensures bound { steps.new ≤ steps.old + (setting.now.config.now.max_bad_signatures + 1) }
    {
        match &self.here {
            Some(here) => {
                self.keys_below::<L>(alloc, setting, &here.zone, pending, reply, memo, steps)
            }
            None => unreachable!(),
        }
    }

    /// What the reply with a key set comes to, below a zone that has signed its DS set.
    fn keys_below<L: Ledger>(
        &self,
        alloc: Global,
        setting: &Setting<'_>,
        zone: &Node<V>,
        pending: &Pending,
        reply: &Option<Octets>,
        memo: &mut impl Memo<V>,
        steps: &mut Steps<L>,
    ) -> Result<Next<V>, NoMemory>
        requires counts { IsZoneNow (world_in V.accepts setting.now) zone.now }
        requires pends { IsPending (world_in V.accepts setting.now) zone.now (held_keys zone.now.standing) pending.now }
        ensures next { IfOk result (λ n. machine.making self.now (machine.heard self.now DNSKEY reply.now)
            (by_key_reply (world_in V.accepts setting.now) zone.now pending.now (read_reply reply.now)) ≡ result_by self.now reply.now n) }
        ensures bound { steps.new ≤ steps.old + (setting.now.config.now.max_bad_signatures + 1) }
    {
        let octets = copied(alloc, reply)?;
        let node = by_keys::<V, L>(
            alloc,
            setting.config,
            setting.moment,
            zone,
            pending,
            octets,
            memo,
            steps,
        )?;
        Ok(Next::Made(Rtype::DNSKEY, node))
    }

    /// What the first reply at a name comes to: a key set at the island, and below it a DS set.
    fn first_by<L: Ledger>(
        &self,
        alloc: Global,
        setting: &Setting<'_>,
        reply: &Option<Octets>,
        memo: &mut impl Memo<V>,
        steps: &mut Steps<L>,
    ) -> Result<Next<V>, NoMemory>
        requires fits { Fits self.now }
        requires below { IsBelowZone (world_in V.accepts setting.now) self.now self.now.reached }
        ensures next { IfOk result (λ n. machine.first_reply (world_in V.accepts setting.now) self.now self.now.reached reply.now ≡ result_by self.now reply.now n) }
        ensures bound { steps.new ≤ steps.old + checked_first self.now.reached reply.now * (setting.now.config.now.max_bad_signatures + 1) }
    {
        match &self.here {
            Some(here) => self.below_by::<L>(alloc, setting, &here.zone, reply, memo, steps),
            None => self.top_by::<L>(alloc, setting, reply, memo, steps),
        }
    }

    /// What the reply with the key set of the island comes to.
    fn top_by<L: Ledger>(
        &self,
        alloc: Global,
        setting: &Setting<'_>,
        reply: &Option<Octets>,
        memo: &mut impl Memo<V>,
        steps: &mut Steps<L>,
    ) -> Result<Next<V>, NoMemory>
        ensures next { IfOk result (λ n. machine.making self.now (machine.heard self.now DNSKEY reply.now)
            (by_anchor_reply (world_in V.accepts setting.now) self.now.top (read_reply reply.now)) ≡ result_by self.now reply.now n) }
        ensures bound { steps.new ≤ steps.old + (setting.now.config.now.max_bad_signatures + 1) }
    {
        let octets = copied(alloc, reply)?;
        let node = anchored::<V, L>(
            alloc,
            setting.anchors,
            setting.config,
            setting.moment,
            &self.top,
            octets,
            memo,
            steps,
        )?;
        Ok(Next::Made(Rtype::DNSKEY, node))
    }

    /// What the reply for a name's DS set comes to, below a zone.
    fn below_by<L: Ledger>(
        &self,
        alloc: Global,
        setting: &Setting<'_>,
        zone: &Node<V>,
        reply: &Option<Octets>,
        memo: &mut impl Memo<V>,
        steps: &mut Steps<L>,
    ) -> Result<Next<V>, NoMemory>
        requires fits { Fits self.now }
        requires counts { IsZoneNow (world_in V.accepts setting.now) zone.now }
        requires under { IsStrictlyBelow (machine.name_at self.now) zone.now.signer }
        ensures next { IfOk result (λ n. machine.below_by self.now (machine.heard self.now DS reply.now)
            (ds_reply_below (world_in V.accepts setting.now) zone.now (held_keys zone.now.standing) (machine.name_at self.now) (read_reply reply.now)) ≡ result_by self.now reply.now n) }
        ensures bound { steps.new ≤ steps.old + most_checked (read_reply reply.now) * (setting.now.config.now.max_bad_signatures + 1) }
    {
        let name = self.name_at(alloc)?;
        let octets = copied(alloc, reply)?;
        let below = by_ds_reply::<V, L>(
            alloc,
            setting.config,
            setting.moment,
            zone,
            &name,
            octets,
            memo,
            steps,
        )?;
        match below {
            Below::Made(node) => Ok(Next::Made(Rtype::DS, node)),
            Below::Asks(pending) => Ok(Next::Asks(pending)),
        }
    }
}

/// A copy of a reply's octets, if there are any.
fn copied(alloc: Global, reply: &Option<Octets>) -> Result<Option<Vec<u8>>, NoMemory>
    ensures { IfOk result (λ copy. option_map (λ octets. octets.items) copy ≡ reply.now) }
{
    match reply {
        Some(octets) => Ok(Some(octets.as_slice().to_vec(alloc)?)),
        None => Ok(None),
    }
}
