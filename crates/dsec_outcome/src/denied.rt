//! What a message comes to where it denies a name or a type (RFC 2308 2, RFC 4035 5.4, RFC 5155 8).

ghost use Rattle.std.specs.Prelude.{◌≡◌, ◌==◌, ℕ, List, Some, IfOk};
ghost use Rattle.dsec_nodes.specs.ByDenial.{at_soa, by_denial as denial_of, denied_under, no_error_in, on_conclusion as on_conclusion_of};
ghost use Rattle.dsec_nodes.specs.World.{World};
ghost use Rattle.dsec_node.specs.Views.{bounds_of, world_of};
ghost use Rattle.dsec_spec.specs.Messages.{rcode_of};
ghost use Rattle.dsec_spec.specs.Names.{place};

use crate::concluded::on_conclusion;
use crate::outcome::Outcome;
use dsec_cause::Cause;
use dsec_crypto::Verifier;
use dsec_found::JudgedGroup;
use dsec_group::Memo;
use dsec_name::NoMemory;
use dsec_node::Config;
use dsec_nsec3_calls::{denied_at, get_soa_state};
use dsec_number::Rcode;
use dsec_wire::{Question, Record};
use std::alloc::Global;

/// What a message with this rcode comes to by the first SOA set that counts: without one it is bogus.
pub(crate) fn by_denial<V: Verifier>(
    alloc: Global,
    anchors: &[Record],
    config: &Config,
    rcode: Rcode,
    question: &Question,
    authorities: &[JudgedGroup<V>],
    memo: &mut impl Memo<V>,
) -> Result<Outcome<V>, NoMemory>
    ensures { IfOk result (λ outcome. (now : ℕ) (message : List ℕ) → rcode_of message ≡ Some rcode
        → outcome ≡ denial_of (world_of V.accepts anchors.now (bounds_of config.now) now) message question.now (place question.now.name) authorities.now) }
{
    let (name, class, rtype) = (question.qname(), question.qclass(), question.qtype());
    match get_soa_state(name, class, rtype, authorities, anchors) {
        (Some((index, _)), _) => {
            let soa = &authorities[index];
            by_soa(alloc, config, rcode, question, authorities, soa, memo)
        }
        (None, cause) => Ok(Outcome::bogus(cause.unwrap_or(Cause::MissingSoa))),
    }
}

/// The same by the SOA set: its status, where links don't show it.
fn by_soa<V: Verifier>(
    alloc: Global,
    config: &Config,
    rcode: Rcode,
    question: &Question,
    authorities: &[JudgedGroup<V>],
    soa: &JudgedGroup<V>,
    memo: &mut impl Memo<V>,
) -> Result<Outcome<V>, NoMemory>
    ensures { IfOk result (λ outcome. (w : World) (message : List ℕ) → w.bounds ≡ bounds_of config.now → rcode_of message ≡ Some rcode
        → outcome ≡ at_soa w message question.now (place question.now.name) authorities.now (Some soa.now)) }
{
    if soa.signature().is_none() {
        return Outcome::unshown(soa);
    }
    by_zone(alloc, config, rcode, question, authorities, soa, memo)
}

/// The same where links show the SOA set: by what the denials that its zone has signed prove.
fn by_zone<V: Verifier>(
    alloc: Global,
    config: &Config,
    rcode: Rcode,
    question: &Question,
    authorities: &[JudgedGroup<V>],
    soa: &JudgedGroup<V>,
    memo: &mut impl Memo<V>,
) -> Result<Outcome<V>, NoMemory>
    ensures { IfOk result (λ outcome. (w : World) (message : List ℕ) → w.bounds ≡ bounds_of config.now → rcode_of message ≡ Some rcode
        → outcome ≡ on_conclusion_of authorities.now soa.now (denied_under w message question.now (place question.now.name) authorities.now soa.now)) }
{
    let no_error = rcode == Rcode::NOERROR;
    let signer = soa.signer_name(alloc)?;
    let limits = config.limits();
    let (name, class) = (question.qname(), question.qclass());
    let rtype = question.qtype();
    let conclusion = denied_at(
        alloc,
        no_error,
        name,
        authorities,
        rtype,
        class,
        &signer,
        &limits,
        memo,
    )?;
    on_conclusion(alloc, authorities, soa, conclusion)
}
