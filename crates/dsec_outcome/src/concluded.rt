//! What a message comes to by what was found of a denial (RFC 4035 5.4, RFC 5155 8).

ghost use Rattle.std.specs.Prelude.{◌≡◌, IfOk};
ghost use Rattle.dsec_nodes.specs.ByDenial.{on_conclusion as on_conclusion_of};
ghost use Rattle.dsec_nsec3.specs.Conclusions as conclusions;
ghost use Rattle.dsec_nsec3_calls.specs.Answers.{conclusion_of};

use crate::outcome::Outcome;
use crate::used::used_by;
use dsec_crypto::Verifier;
use dsec_found::JudgedGroup;
use dsec_name::NoMemory;
use dsec_nsec3_calls::Conclusion;
use std::alloc::Global;

/// What a message comes to by the group that links show, where it needs that something is denied: Secure where that is proved, and
/// Insecure where NSEC3 records leave it open.
pub(crate) fn on_conclusion<V: Verifier>(
    alloc: Global,
    authorities: &[JudgedGroup<V>],
    judged: &JudgedGroup<V>,
    conclusion: Conclusion,
) -> Result<Outcome<V>, NoMemory>
    ensures { IfOk result (λ outcome. (c : conclusions.Conclusion) → conclusion ≡ conclusion_of c → outcome ≡ on_conclusion_of authorities.now judged.now c) }
{
    match conclusion {
        Conclusion::Proved(used) => {
            let used = used_by(alloc, authorities, used.as_slice())?;
            Outcome::secure_by(alloc, judged, used)
        }
        Conclusion::LeftOpen(cause, index) => {
            let used = used_by(alloc, authorities, &[index])?;
            Outcome::left_open(alloc, judged, cause, used)
        }
        Conclusion::Unproved(cause) => Ok(Outcome::bogus(cause)),
    }
}
