//! What answers the steps of a walk: caches of nodes, and an upstream (RFC 4035 4.3, 4.5).

ghost use Rattle.std.specs.Prelude.{◌≡◌, false, IfOk, OnErr};
ghost use Rattle.dsec_spec.specs.Outside.{risen};
ghost use Rattle.dsec_walk.specs.Views.{input_view, step_view};
ghost use Rattle.dsec_single.specs.Progress.{is_last, IsAsking, IsWalkServed};

use dsec_crypto::Verifier;
use dsec_lookup::{held_node, put_node, reply_to};
use dsec_name::NoMemory;
use dsec_node::Caches;
use dsec_outside::Upstream;
use dsec_walk::{Input, Step};
use std::alloc::Global;

/// What answers a step that isn't the end. Where caches find no memory, a node is none, or isn't kept.
pub(crate) fn answer_to<V: Verifier, C: Caches<V>, U: Upstream>(
    alloc: Global,
    caches: &mut C,
    upstream: &mut U,
    step: Step<V>,
) -> Result<Input<V>, NoMemory>
    requires { is_last (step_view step) ≡ false }
    ensures served { IfOk result (λ input. IsWalkServed V.accepts (U.table upstream.old)
        (record { held = C.held caches.old; lasting = C.lasting caches.old; asked = U.asked upstream.old; faults = U.faults upstream.old; heard = U.heard upstream.old })
        (record { held = C.held caches.new; lasting = C.lasting caches.new; asked = U.asked upstream.new; faults = U.faults upstream.new; heard = U.heard upstream.new }) (step_view step) (input_view input)) }
    ensures lost { OnErr result ((C.held caches.new ≡ C.held caches.old) × (C.lasting caches.new ≡ C.lasting caches.old) × (U.asked upstream.new ≡ risen (U.asked upstream.old)) × (U.faults upstream.new ≡ U.faults upstream.old) × (U.heard upstream.new ≡ U.heard upstream.old)) }
    ensures asking { OnErr result (IsAsking (step_view step)) }
    ensures same_table { U.table upstream.new ≡ U.table upstream.old }
{
    match step {
        Step::NodeGet(name) => Ok(Input::Node(held_node(caches, &name))),
        Step::NodePut(name, node) => {
            put_node(caches, name, &node);
            Ok(Input::Stored)
        }
        Step::Ask(name, rtype) => {
            let reply = reply_to(alloc, upstream, &name, rtype)?;
            Ok(Input::Reply(reply))
        },
        Step::Done(_) => unreachable!(),
    }
}
