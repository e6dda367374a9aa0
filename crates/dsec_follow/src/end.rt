//! Where a path of aliases ends (RFC 1034 3.6.2).

ghost use Rattle.std.specs.Prelude.{◌≡◌, [], None, Some};
ghost use Rattle.dsec_alias.specs.States.{bogus};
ghost use Rattle.dsec_found.specs.Outcomes.{state_view};

use dsec_cause::Cause;
use dsec_group::ValidationState;
use dsec_name::Name;
use dsec_nsec3_calls::Used;
use std::alloc::Global;
use std::marker::Model;

/// A step of a path: the index of the alias among the answer section's groups; and where it is an expansion of a wildcard the indexes
/// of the authority section's groups by which that its name exists is denied, or of the one that leaves it open.
#[derive(Drop)]
pub struct AliasStep {
    group: usize,
    used: Used,
}

impl Model for AliasStep {
    ghost use Rattle.dsec_follow.specs.Ends.{StepTold};

    ghost Value = { StepTold };

    ghost view = { λ step. record { group = step.group; used = step.used } };
}

impl AliasStep {
    /// A step.
    pub(crate) fn new(group: usize, used: Used) -> AliasStep
        ensures { result ≡ record { group = group; used = used } }
    {
        AliasStep { group, used }
    }

    /// The index of the alias.
    pub fn group(&self) -> usize
        ensures { result ≡ self.now.group }
    {
        self.group
    }

    /// The indexes of the groups by which that its name exists is denied or left open.
    pub fn used(&self) -> &Used
        ensures { result.now ≡ self.now.used }
    {
        &self.used
    }
}

/// The steps of a path, in order.
pub type AliasSteps = Vec<AliasStep>;

/// Where a path of aliases ends: at a name, with the state of its aliases; where that is Bogus it is the name that was reached, with
/// the cause, and no step is told.
#[derive(Drop)]
pub struct AliasEnd {
    name: Name,
    state: ValidationState,
    cause: Option<Cause>,
    steps: AliasSteps,
}

impl Model for AliasEnd {
    ghost use Rattle.dsec_found.specs.Outcomes.{state_view};
    ghost use Rattle.dsec_follow.specs.Ends.{EndTold};

    ghost Value = { EndTold };

    ghost view = { λ end. record { name = end.name; state = state_view end.state; cause = end.cause; steps = end.steps.items } };
}

impl AliasEnd {
    /// The end of a path at its final name.
    pub(crate) fn at(name: Name, state: ValidationState, steps: AliasSteps) -> AliasEnd
        ensures { result ≡ record { name = name; state = state_view state; cause = None; steps = steps.items } }
    {
        AliasEnd {
            name,
            state,
            cause: None,
            steps,
        }
    }

    /// The end of a path that is Bogus.
    pub(crate) fn bogus(alloc: Global, name: Name, cause: Cause) -> AliasEnd
        ensures { result ≡ record { name = name; state = bogus; cause = Some cause; steps = [] } }
    {
        AliasEnd {
            name,
            state: ValidationState::Bogus,
            cause: Some(cause),
            steps: Vec::new(alloc),
        }
    }

    /// The name.
    pub fn name(&self) -> &Name
        ensures { result.now ≡ self.now.name }
    {
        &self.name
    }

    /// The state.
    pub fn state(&self) -> ValidationState
        ensures { state_view result ≡ self.now.state }
    {
        self.state
    }

    /// Why the path is Bogus, where it is.
    pub fn cause(&self) -> Option<Cause>
        ensures { result ≡ self.now.cause }
    {
        self.cause
    }

    /// The steps.
    pub fn steps(&self) -> &[AliasStep]
        ensures { result.now ≡ self.now.steps }
    {
        &self.steps
    }
}
