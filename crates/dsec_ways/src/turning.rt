//! What takes turns in the ways of judging.

use crate::scene::Messages;
use crate::told::Told;
use dsec_context::Error;
use dsec_crypto::StandIn;
use dsec_group::Steps;
use dsec_node::Caches;
use dsec_outside::Upstream;
use dsec_script::Item;
use std::alloc::Global;
use std::sync::ledger::Ledger;

/// A message that is judged a step at a time. The ways go over any, so that what one holds is not gone into in each of them.
pub(crate) trait Turning: Drop + Sized {
    /// The message with this index, which is to begin.
    fn start(alloc: Global, messages: &Messages, index: usize, item: &Item) -> Result<Self, Error>;

    /// One step more, where it has not ended: it is given what answers the last step, and caches or the upstream answer the next.
    fn turn<C: Caches<StandIn>, U: Upstream, L: Ledger>(
        &mut self,
        alloc: Global,
        caches: &mut C,
        upstream: &mut U,
        steps: &mut Steps<L>,
    );

    /// What is told of the message, where nothing more is waited for.
    fn told(&self) -> Option<Told>;
}
