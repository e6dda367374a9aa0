//! Which group of a reply answers, and its state (RFC 1034 3.7.1, RFC 4033 5).

ghost use Rattle.std.specs.Prelude.{◌≡◌, Some, IfSome};
ghost use Rattle.std.specs.Option.{option_map};
ghost use Rattle.dsec_absence.specs.Replies.{answer_at, is_set_of as set_of};
ghost use Rattle.dsec_alias.specs.States.{map_maybe_secure as maybe_secure_of};
ghost use Rattle.dsec_found.specs.Outcomes.{state_view};
ghost use Rattle.dsec_negative.specs.Told.{HasStateAndCause, answer_index_in};
ghost use Rattle.dsec_nodes.specs.Judging.{Judged};
ghost use Rattle.dsec_spec.specs.Names.{place};

use dsec_cause::Cause;
use dsec_chain::is_same;
use dsec_crypto::Verifier;
use dsec_found::JudgedGroup;
use dsec_group::{Group, ValidationState};
use dsec_name::Name;
use dsec_number::{Class, Rtype};

/// The index, the state and the cause of the first group that is the set of this class and type at the name.
pub fn get_answer_state<V: Verifier>(
    name: &Name,
    class: Class,
    rtype: Rtype,
    answers: &[JudgedGroup<V>],
) -> Option<(usize, ValidationState, Option<Cause>)>
    ensures index { option_map answer_index_in result ≡ answer_at (place name.now) class rtype (λ (j : Judged). j.group) answers.now }
    ensures state { IfSome result (λ found. HasStateAndCause answers.now found.0 found.1 found.2) }
{
    match answer_in(name, class, rtype, answers) {
        Some(index) => {
            let judged = &answers[index];
            Some((index, judged.state(), judged.cause()))
        }
        None => None,
    }
}

/// The index of the first group that is the set.
fn answer_in<V: Verifier>(
    name: &Name,
    class: Class,
    rtype: Rtype,
    answers: &[JudgedGroup<V>],
) -> Option<usize>
    ensures { result ≡ answer_at (place name.now) class rtype (λ (j : Judged). j.group) answers.now }
{
    answers
        .iter()
        .position(|one| is_set_of(name, class, rtype, one.group()))
}

/// Whether a group is the set of this class and type at the name.
fn is_set_of(name: &Name, class: Class, rtype: Rtype, group: &Group) -> bool
    ensures { result ≡ set_of (place name.now) class rtype group.now }
{
    is_same(group.owner(), name) && group.class() == class && group.rtype() == rtype
}

/// The state of what was found after others of this state: theirs where it is Secure, and else its own.
pub fn map_maybe_secure(found: ValidationState, maybe_secure: ValidationState) -> ValidationState
    ensures { state_view result ≡ maybe_secure_of (state_view found) (state_view maybe_secure) }
{
    if found == ValidationState::Secure {
        maybe_secure
    } else {
        found
    }
}

/// The extended error of a cause: there always is one (RFC 8914 4).
pub fn make_ede(cause: Cause) -> Option<Cause>
    ensures { result ≡ Some cause }
{
    Some(cause)
}
