//! What a message comes to by the group that answers, which may be an expansion of a wildcard (RFC 4033 5, RFC 4035 5.3.4, RFC 5155 8.8).

ghost use Rattle.std.specs.Prelude.{◌≡◌, IfOk};
ghost use Rattle.dsec_nodes.specs.Alone.{by_answer};
ghost use Rattle.dsec_nodes.specs.ByDenial.{by_wildcard as by_wildcard_of};
ghost use Rattle.dsec_nodes.specs.World.{World};
ghost use Rattle.dsec_node.specs.Views.{bounds_of};
ghost use Rattle.dsec_spec.specs.Names.{place};

use crate::concluded::on_conclusion;
use crate::outcome::Outcome;
use dsec_crypto::Verifier;
use dsec_follow::closest_encloser;
use dsec_found::JudgedGroup;
use dsec_group::Memo;
use dsec_name::{Name, NoMemory};
use dsec_node::Config;
use dsec_nsec3_calls::closer_denied;
use dsec_wire::Question;
use std::alloc::Global;

/// What a message comes to by the group that answers its question: Secure where links show it, and for an expansion of a wildcard
/// only where that a closer name exists is denied.
pub(crate) fn answered<V: Verifier>(
    alloc: Global,
    config: &Config,
    question: &Question,
    judged: &JudgedGroup<V>,
    authorities: &[JudgedGroup<V>],
    memo: &mut impl Memo<V>,
) -> Result<Outcome<V>, NoMemory>
    ensures { IfOk result (λ outcome. (w : World) → w.bounds ≡ bounds_of config.now → outcome ≡ by_answer w question.now (place question.now.name) authorities.now judged.now judged.now.finding) }
{
    if judged.signature().is_none() {
        return Outcome::unshown(judged);
    }
    match closest_encloser(alloc, judged)? {
        Some(encloser) => {
            by_wildcard(
                alloc,
                config,
                question,
                judged,
                authorities,
                &encloser,
                memo,
            )
        }
        None => Outcome::secure_by(alloc, judged, Vec::new(alloc)),
    }
}

/// What it comes to by a group that links show as an expansion of the wildcard under this name.
fn by_wildcard<V: Verifier>(
    alloc: Global,
    config: &Config,
    question: &Question,
    judged: &JudgedGroup<V>,
    authorities: &[JudgedGroup<V>],
    encloser: &Name,
    memo: &mut impl Memo<V>,
) -> Result<Outcome<V>, NoMemory>
    ensures { IfOk result (λ outcome. (w : World) → w.bounds ≡ bounds_of config.now → outcome ≡ by_wildcard_of w question.now (place question.now.name) authorities.now judged.now encloser.now) }
{
    let signer = judged.signer_name(alloc)?;
    let limits = config.limits();
    let (name, class) = (question.qname(), question.qclass());
    let conclusion = closer_denied(
        alloc,
        name,
        authorities,
        class,
        &signer,
        encloser,
        &limits,
        memo,
    )?;
    on_conclusion(alloc, authorities, judged, conclusion)
}
