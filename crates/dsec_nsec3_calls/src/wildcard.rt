//! That a name exists for which a wildcard stands, denied (RFC 4035 5.3.4, RFC 5155 8.8).

ghost use Rattle.std.specs.Prelude.{◌≡◌, IfOk};
ghost use Rattle.dsec_nsec3.specs.Conclusions as conclusions;
ghost use Rattle.dsec_nsec3_calls.specs.Answers.{conclusion_of};
ghost use Rattle.dsec_nsec3_calls.specs.Told.{wildcard_told};
ghost use Rattle.dsec_nsec3_calls.specs.Views.{hash_limits, source_of};
ghost use Rattle.dsec_spec.specs.Names.{place};

use crate::conclusion::{Conclusion, closer_denied};
use dsec_cause::Cause;
use dsec_crypto::Verifier;
use dsec_group::{Limits, Memo, ValidationState};
use dsec_name::{Name, NoMemory};
use dsec_negative::{JudgedGroup, Used};
use dsec_number::Class;
use std::alloc::Global;

/// Whether the groups, of this class and signed by this zone, show that the name doesn't exist for which the wildcard under the closest
/// encloser stands, or leave that open, and are then insecure. With the state, the cause, and the indexes of the groups.
pub fn check_not_exists_for_wildcard<V: Verifier>(
    alloc: Global,
    name: &Name,
    groups: &[JudgedGroup<V>],
    class: Class,
    signer: &Name,
    closest_encloser: &Name,
    limits: &Limits,
    memo: &mut impl Memo<V>,
) -> Result<(bool, ValidationState, Option<Cause>, Used), NoMemory>
    ensures { IfOk result (λ it. it ≡ wildcard_told (conclusions.closer_denied (hash_limits limits.now) (source_of groups.now class signer.now) (place name.now) (place closest_encloser.now))) }
{
    let conclusion = closer_denied::<V>(
        alloc,
        name,
        groups,
        class,
        signer,
        closest_encloser,
        limits,
        memo,
    )?;
    Ok(told(conclusion))
}

/// A conclusion, as the call tells it.
fn told(conclusion: Conclusion) -> (bool, ValidationState, Option<Cause>, Used)
    ensures { (it : conclusions.Conclusion) → conclusion ≡ conclusion_of it → result ≡ wildcard_told it }
{
    match conclusion {
        Conclusion::Proved(used) => (true, ValidationState::Secure, None, used),
        Conclusion::LeftOpen(cause, index) => {
            (true, ValidationState::Insecure, cause, Used::one(index))
        }
        Conclusion::Unproved(cause) => (false, ValidationState::Bogus, Some(cause), Used::none()),
    }
}
