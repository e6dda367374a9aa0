//! What a message comes to (RFC 4033 5, RFC 4035 4.3).

ghost use Rattle.std.specs.Prelude.{◌≡◌, ◌∷◌, [], IfOk, None};
ghost use Rattle.dsec_nodes.specs.Alone.{after_path, why_after as why_after_of};
ghost use Rattle.dsec_nodes.specs.Outcomes.{bogus_by, by_finding, by_nothing, open_by, secure_by as secure_of};
ghost use Rattle.dsec_nodes.specs.Outcomes as outcomes;
ghost use Rattle.dsec_spec.specs.Records as records;
ghost use Rattle.dsec_found.specs.Outcomes.{state_view};
ghost use Rattle.dsec_found.specs.Told.{signature_of};
ghost use Rattle.dsec_outcome.specs.Outcomes.{unshown_why, why_view};

use crate::used::UsedGroup;
use dsec_cause::Cause;
use dsec_crypto::Verifier;
use dsec_found::{JudgedGroup, SharedCause, SharedLinks};
use dsec_group::ValidationState;
use dsec_name::NoMemory;
use dsec_nsec3_calls::map_maybe_secure;
use std::alloc::Global;
use std::marker::Model;

/// Why a state was found. Groups, links and signed records are shared with those that judging keeps.
#[derive(Drop)]
pub enum Why<V: Verifier> {
    /// By judged groups, and by the groups that denials beside them use, each in order.
    ByGroups(Vec<JudgedGroup<V>>, Vec<UsedGroup<V>>),
    /// By the signed record that shows that no chain leads on (RFC 4035 5.2).
    ByCause(SharedCause<V>),
    /// By the links to the zone whose keys were tried, if there are any.
    ByLinks(SharedLinks<V>),
    /// By none of these.
    ByNothing,
}

/// A state with its cause, if one is told, and why it was found.
#[derive(Drop)]
pub struct Outcome<V: Verifier> {
    state: ValidationState,
    cause: Option<Cause>,
    why: Why<V>,
}

impl<V: Verifier> Model for Outcome<V> {
    ghost use Rattle.dsec_nodes.specs.Outcomes as outcomes;
    ghost use Rattle.dsec_found.specs.Outcomes.{state_view};
    ghost use Rattle.dsec_outcome.specs.Outcomes.{why_view};

    ghost Value = { outcomes.Outcome };

    ghost view = { λ it. record { state = state_view it.state; cause = it.cause; why = why_view it.why } };
}

impl<V: Verifier> Outcome<V> {
    /// A state with its cause, and why it was found.
    pub(crate) fn new(state: ValidationState, cause: Option<Cause>, why: Why<V>) -> Outcome<V>
        ensures { result ≡ record { state = state_view state; cause = cause; why = why_view why } }
    {
        Outcome { state, cause, why }
    }

    /// A secure outcome by a group that links show, and by the groups that a denial beside it uses.
    pub(crate) fn secure_by(
        alloc: Global,
        judged: &JudgedGroup<V>,
        used: Vec<UsedGroup<V>>,
    ) -> Result<Outcome<V>, NoMemory>
        ensures { IfOk result (λ outcome. outcome ≡ secure_of (judged.now ∷ []) used.items) }
    {
        let why = Why::ByGroups(alone(alloc, judged)?, used);
        Ok(Outcome::new(ValidationState::Secure, None, why))
    }

    /// An insecure outcome by a group that links show, and by the group whose NSEC3 record leaves open what is to be denied beside it.
    pub(crate) fn left_open(
        alloc: Global,
        judged: &JudgedGroup<V>,
        cause: Option<Cause>,
        used: Vec<UsedGroup<V>>,
    ) -> Result<Outcome<V>, NoMemory>
        ensures { IfOk result (λ outcome. outcome ≡ open_by cause (judged.now ∷ []) used.items) }
    {
        let why = Why::ByGroups(alone(alloc, judged)?, used);
        Ok(Outcome::new(ValidationState::Insecure, cause, why))
    }

    /// The outcome by a group that links don't show.
    pub(crate) fn unshown(judged: &JudgedGroup<V>) -> Result<Outcome<V>, NoMemory>
        requires { signature_of judged.now.finding ≡ None }
        ensures { IfOk result (λ outcome. (where_shown : records.Record → outcomes.Outcome) → outcome ≡ by_finding where_shown judged.now.finding) }
    {
        let why = unshown_by(judged)?;
        Ok(Outcome::new(judged.state(), judged.cause(), why))
    }

    /// A bogus outcome for which nothing else speaks.
    pub fn bogus(cause: Cause) -> Outcome<V>
        ensures { result ≡ bogus_by cause by_nothing }
    {
        Outcome::new(ValidationState::Bogus, Some(cause), Why::ByNothing)
    }

    /// The outcome after aliases, by their state, their groups, and the groups beside them.
    pub(crate) fn after(
        self,
        state: ValidationState,
        aliases: Vec<JudgedGroup<V>>,
        beside: Vec<UsedGroup<V>>,
    ) -> Result<Outcome<V>, NoMemory>
        ensures { IfOk result (λ outcome. outcome ≡ after_path (state_view state) aliases.items beside.items self) }
    {
        let state = map_maybe_secure(self.state, state);
        let why = why_after(self.why, aliases, beside)?;
        Ok(Outcome::new(state, self.cause, why))
    }

    /// The security status of what the message answers (RFC 4033 5).
    pub fn state(&self) -> ValidationState
        ensures { state_view result ≡ self.now.state }
    {
        self.state
    }

    /// Why it is as it is, as an extended DNS error (RFC 8914). Where judging a message came to it, a bogus one has a cause, and a secure one none.
    pub fn cause(&self) -> Option<Cause>
        ensures { result ≡ self.now.cause }
    {
        self.cause
    }

    /// What shows it.
    pub fn why(&self) -> &Why<V>
        ensures { why_view result.now ≡ self.now.why }
    {
        &self.why
    }
}

/// A judged group alone.
fn alone<V: Verifier>(
    alloc: Global,
    judged: &JudgedGroup<V>,
) -> Result<Vec<JudgedGroup<V>>, NoMemory>
    ensures { IfOk result (λ groups. groups.items ≡ judged.now ∷ []) }
{
    let mut groups = Vec::with_capacity(alloc, 1)?;
    groups.push(judged.clone()?)?;
    Ok(groups)
}

/// Why, with the groups of aliases before the others, and those beside them.
fn why_after<V: Verifier>(
    why: Why<V>,
    mut aliases: Vec<JudgedGroup<V>>,
    mut beside: Vec<UsedGroup<V>>,
) -> Result<Why<V>, NoMemory>
    ensures { IfOk result (λ after. why_view after ≡ why_after_of aliases.items beside.items (why_view why)) }
{
    match why {
        Why::ByGroups(mut groups, mut used) => {
            aliases.append(&mut groups)?;
            beside.append(&mut used)?;
            Ok(Why::ByGroups(aliases, beside))
        }
        other => Ok(other),
    }
}

/// Why a group that links don't show is as it is.
fn unshown_by<V: Verifier>(judged: &JudgedGroup<V>) -> Result<Why<V>, NoMemory>
    requires { signature_of judged.now.finding ≡ None }
    ensures { IfOk result (λ why. why_view why ≡ unshown_why judged.now.finding) }
{
    if let Some(cause) = judged.insecure()? {
        return Ok(Why::ByCause(cause));
    }
    match judged.bogus()? {
        Some((_, links)) => Ok(Why::ByLinks(links)),
        None => Ok(Why::ByNothing),
    }
}
