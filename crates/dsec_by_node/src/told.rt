//! What is told of a single group (RFC 4033 5, RFC 4035 5.3).

ghost use Rattle.std.specs.Prelude.{◌≡◌, None, Some};
ghost use Rattle.std.specs.Option.{option_map};
ghost use Rattle.dsec_group.specs.declared.state.ValidationState.TheVariants.{Indeterminate, Insecure, Secure};
ghost use Rattle.dsec_spec.specs.Names.{place};
ghost use Rattle.dsec_by_node.specs.Answers.{CanBeTold, validated_by};

use dsec_cause::Cause;
use dsec_crypto::Verifier;
use dsec_group::{Group, ValidationState};
use dsec_link::Shown;
use dsec_name::Name;
use dsec_number::Ttl;
use dsec_validated::ValidatedGroup;
use std::marker::Model;

/// The security status of a group, why it has it, and how far its TTLs are to be cut. A Secure one of `validate_with_node` comes with the links that
/// show it.
#[derive(Drop)]
pub struct Told<V: Verifier> {
    state: ValidationState,
    closest_encloser: Option<Name>,
    cause: Option<Cause>,
    adjusted: Option<Ttl>,
    shown: Option<Shown<V>>,
}

impl<V: Verifier> Model for Told<V> {
    ghost use Rattle.dsec_by_node.specs.Answers as answers;

    ghost Value = { answers.Told };

    ghost view = { λ it. record { answer = record { state = it.state; closest_encloser = it.closest_encloser; cause = it.cause; adjusted = it.adjusted }; shown = it.shown } };
}

impl<V: Verifier> Told<V> {
    /// What is told of a Secure group.
    pub(crate) fn secure(
        closest_encloser: Option<Name>,
        adjusted: Option<Ttl>,
        shown: Shown<V>,
    ) -> Told<V>
        ensures { result ≡ record { answer = record { state = Secure; closest_encloser = closest_encloser; cause = None; adjusted = adjusted }; shown = Some shown } }
    {
        Told {
            state: ValidationState::Secure,
            closest_encloser,
            cause: None,
            adjusted,
            shown: Some(shown),
        }
    }

    /// An Insecure group, and why it is insecure.
    pub fn insecure(cause: Cause) -> Told<V>
        ensures { result ≡ record { answer = record { state = Insecure; closest_encloser = None; cause = Some cause; adjusted = None }; shown = None } }
    {
        Told::unsecured(ValidationState::Insecure, Some(cause))
    }

    /// An Indeterminate group, and why nothing is known of it.
    pub fn indeterminate(cause: Cause) -> Told<V>
        ensures { result ≡ record { answer = record { state = Indeterminate; closest_encloser = None; cause = Some cause; adjusted = None }; shown = None } }
    {
        Told::unsecured(ValidationState::Indeterminate, Some(cause))
    }

    /// What is told of a group without links: a status and its cause.
    pub(crate) fn unsecured(state: ValidationState, cause: Option<Cause>) -> Told<V>
        ensures { result ≡ record { answer = record { state = state; closest_encloser = None; cause = cause; adjusted = None }; shown = None } }
    {
        Told {
            state,
            closest_encloser: None,
            cause,
            adjusted: None,
            shown: None,
        }
    }

    /// The group with what is told of it; `signer` is the zone that has signed it, or was to.
    pub fn into_validated(self, group: Group, signer: Name) -> ValidatedGroup<V>
        requires { CanBeTold V.accepts group (place signer) self }
        ensures { result ≡ validated_by group signer self }
    {
        let Told {
            state,
            closest_encloser,
            cause,
            adjusted,
            shown,
        } = self;
        match shown {
            Some(shown) => {
                ValidatedGroup::secure(group, signer, closest_encloser, adjusted, shown)
            }
            None => ValidatedGroup::unsecured(group, state, signer, cause),
        }
    }

    /// The security status (RFC 4033 5).
    pub fn state(&self) -> ValidationState
        ensures { result ≡ self.now.answer.state }
    {
        self.state
    }

    /// The closest encloser, where the group is Secure as a wildcard's expansion (RFC 4035 5.3.4).
    pub fn closest_encloser(&self) -> Option<&Name>
        ensures { option_map (λ name. name.now) result ≡ self.now.answer.closest_encloser }
    {
        self.closest_encloser.as_ref()
    }

    /// Why the group isn't Secure, where that has a cause (RFC 8914); each bogus one of `validate_with_node` has one.
    pub fn ede(&self) -> Option<Cause>
        ensures { result ≡ self.now.answer.cause }
    {
        self.cause
    }

    /// The TTL that those of the group are to be cut to, where it is Secure and its signature may be kept for less (RFC 4035 5.3.3).
    pub fn adjust_ttl(&self) -> Option<Ttl>
        ensures { result ≡ self.now.answer.adjusted }
    {
        self.adjusted
    }

    /// What shows a Secure group.
    pub fn shown(&self) -> Option<&Shown<V>>
        ensures { option_map (λ shown. shown.now) result ≡ self.now.shown }
    {
        self.shown.as_ref()
    }
}
