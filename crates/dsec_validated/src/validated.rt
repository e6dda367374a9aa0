//! Groups that were validated (RFC 4033 5, RFC 4035 4.3).

ghost use Rattle.std.specs.Prelude.{◌≡◌, ◌≢◌, None, Some, IsSome};
ghost use Rattle.std.specs.Option.{option_map};
ghost use Rattle.dsec_group.specs.declared.state.ValidationState.TheVariants.{Bogus, Secure};
ghost use Rattle.dsec_spec.specs.JudgedGroups.{ShowsGroup};
ghost use Rattle.dsec_spec.specs.Names.{place};
ghost use Rattle.dsec_validated.specs.Validated.{Validated, IsJustified};

use dsec_cause::Cause;
use dsec_crypto::Verifier;
use dsec_group::{Group, ValidationState};
use dsec_link::Shown;
use dsec_name::Name;
use dsec_number::{Class, Rtype, Ttl};
use dsec_wire::Record;
use std::marker::Model;

/// A group with its security status. A Secure one keeps why it is: the links from an anchor to its set, of which the last has the
/// signature and the key that show it. It can't be made otherwise.
#[derive(Drop)]
pub struct ValidatedGroup<V: Verifier> {
    group: Group,
    state: ValidationState,
    signer: Name,
    closest_encloser: Option<Name>,
    cause: Option<Cause>,
    adjusted: Option<Ttl>,
    shown: Option<Shown<V>>,
}

impl<V: Verifier> Model for ValidatedGroup<V> {
    ghost use Rattle.dsec_validated.specs.Validated.{Validated, IsJustified};

    ghost Value = { Validated };

    ghost view = { λ it. record { group = it.group; state = it.state; signer = it.signer; closest_encloser = it.closest_encloser; cause = it.cause; adjusted = it.adjusted; shown = it.shown } };

    ghost invariant = { λ it. IsJustified V.accepts (record { group = it.group; state = it.state; signer = it.signer; closest_encloser = it.closest_encloser; cause = it.cause; adjusted = it.adjusted; shown = it.shown }) };
}

impl<V: Verifier> ValidatedGroup<V> {
    /// A Secure group: the links of `shown` lead to its set, the signer is the zone that has signed it, and by the signature of the
    /// last link it is a wildcard's expansion with this closest encloser, or none, and its TTLs are to be cut, or to stay.
    pub fn secure(
        group: Group,
        signer: Name,
        closest_encloser: Option<Name>,
        adjusted: Option<Ttl>,
        shown: Shown<V>,
    ) -> ValidatedGroup<V>
        requires { ShowsGroup V.accepts shown.anchor shown.links shown.moment group (place signer) closest_encloser adjusted }
        ensures { result ≡ record { group = group; state = Secure; signer = signer; closest_encloser = closest_encloser; cause = None; adjusted = adjusted; shown = Some shown } }
    {
        ValidatedGroup {
            group,
            state: ValidationState::Secure,
            signer,
            closest_encloser,
            cause: None,
            adjusted,
            shown: Some(shown),
        }
    }

    /// A group with another status: the signer is the zone that was to have signed it, and a bogus one has a cause.
    pub fn unsecured(
        group: Group,
        state: ValidationState,
        signer: Name,
        cause: Option<Cause>,
    ) -> ValidatedGroup<V>
        requires other { state ≢ Secure }
        requires because { state ≡ Bogus → IsSome cause }
        ensures { result ≡ record { group = group; state = state; signer = signer; closest_encloser = None; cause = cause; adjusted = None; shown = None } }
    {
        ValidatedGroup {
            group,
            state,
            signer,
            closest_encloser: None,
            cause,
            adjusted: None,
            shown: None,
        }
    }

    /// The group itself.
    pub fn group(&self) -> &Group
        ensures { result.now ≡ self.now.group }
    {
        &self.group
    }

    /// The owner, in the letters of the first record, or of the first signature where there is no record.
    pub fn owner(&self) -> &Name
        ensures { result.now ≡ self.now.group.owner }
    {
        self.group.owner()
    }

    /// The class of all records.
    pub fn class(&self) -> Class
        ensures { result ≡ self.now.group.class }
    {
        self.group.class()
    }

    /// The type of the records, and RRSIG where there are signatures alone.
    pub fn rtype(&self) -> Rtype
        ensures { result ≡ self.now.group.rtype }
    {
        self.group.rtype()
    }

    /// The records that are no signatures, in order of arrival.
    pub fn rr_set(&self) -> &[Record]
        ensures { result.now ≡ self.now.group.records }
    {
        self.group.rr_set()
    }

    /// The signatures, in order of arrival.
    pub fn sig_set(&self) -> &[Record]
        ensures { result.now ≡ self.now.group.signatures }
    {
        self.group.sig_set()
    }

    /// The CNAME records that follow from the group's DNAME record and stood apart (RFC 6672 3.1).
    pub fn extra_set(&self) -> &[Record]
        ensures { result.now ≡ self.now.group.extra }
    {
        self.group.extra_set()
    }

    /// Whether a duplicate of a member was dropped (RFC 2181 5).
    pub fn found_duplicate(&self) -> bool
        ensures { result ≡ self.now.group.had_duplicate }
    {
        self.group.found_duplicate()
    }

    /// The security status.
    pub fn state(&self) -> ValidationState
        ensures value { result ≡ self.now.state }
        ensures justified { IsJustified V.accepts self.now }
    {
        self.state
    }

    /// The zone that has signed the group, or was to have signed it.
    pub fn signer_name(&self) -> &Name
        ensures { result.now ≡ self.now.signer }
    {
        &self.signer
    }

    /// The closest encloser, where the group is Secure as a wildcard's expansion (RFC 4035 5.3.4).
    pub fn closest_encloser(&self) -> Option<&Name>
        ensures { option_map (λ name. name.now) result ≡ self.now.closest_encloser }
    {
        self.closest_encloser.as_ref()
    }

    /// Why the group isn't Secure; each bogus one has a cause.
    pub fn ede(&self) -> Option<Cause>
        ensures { result ≡ self.now.cause }
    {
        self.cause
    }

    /// The TTL that those of the group are to be cut to, where it is Secure and its signature may be kept for less (RFC 4035 5.3.3).
    pub fn adjust_ttl(&self) -> Option<Ttl>
        ensures { result ≡ self.now.adjusted }
    {
        self.adjusted
    }

    /// What shows a Secure group.
    pub fn shown(&self) -> Option<&Shown<V>>
        ensures { option_map (λ shown. shown.now) result ≡ self.now.shown }
    {
        self.shown.as_ref()
    }
}
